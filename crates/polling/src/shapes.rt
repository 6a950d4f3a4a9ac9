// A pile of a shape, and requests to it.
ghost use Rattle.polling.specs.Shapes.{Answered, shape_remains};

use crate::shape::Shape;
use layers::end_layer;
use piles::{Request, make_requests};
use sources::{Source, TextSource};

// Makes the requests to a fresh pile of this shape over the text.
pub fn poll_pile(shape: Shape, site: &[u8], requests: &mut [Request])
    ensures { Answered (shape_remains shape site.now) 0 requests.old requests.new }
{
    let source = TextSource::new(site);
    // A match with a call in each arm, as each shape is a pile of another type.
    match shape {
        Shape::Bare => ask_pile(source, requests),
        Shape::OneEnd => ask_pile(end_layer(source), requests),
        Shape::TwoEnds => ask_pile(end_layer(end_layer(source)), requests),
        Shape::ThreeEnds => ask_pile(end_layer(end_layer(end_layer(source))), requests),
        Shape::FourEnds => ask_pile(end_layer(end_layer(end_layer(end_layer(source)))), requests),
    }
}

// Makes the requests to a pile.
fn ask_pile<S: Source + Drop>(mut pile: S, requests: &mut [Request])
    ensures { Answered (S.meaning (S.kept pile)) 0 requests.old requests.new }
{
    make_requests(&mut pile, requests);
}
