// A machine: what one kind of layer does with a line that it takes, and by one step of work.
use sources::{Ending, Line, Told};

#[derive(Clone, Copy)]
pub enum Deed {
    Onward,
    Hands(Line),
    Stops(Ending),
}

// Matches: each answer stands in the case of the deed.
impl Deed {
    ghost use Rattle.std.specs.Prelude.{◌≡◌};
    ghost use Rattle.layers.specs.Engine.{ending_of, heard_of};

    // The ending that it tells.
    pub(crate) fn ending(&self) -> Option<Ending>
        ensures { result ≡ ending_of self.now }
    {
        match self {
            Deed::Onward | Deed::Hands(_) => None,
            Deed::Stops(ending) => Some(*ending),
        }
    }

    // What is told of it.
    pub(crate) fn told(self) -> Option<Told<Line>>
        ensures { result ≡ heard_of self }
    {
        match self {
            Deed::Onward => None,
            Deed::Hands(line) => Some(Told::Line(line)),
            Deed::Stops(ending) => Some(Told::Ended(ending)),
        }
    }
}
