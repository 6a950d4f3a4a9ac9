// Any list of requests, one after the other.
ghost use Rattle.std.specs.Prelude.{◌≡◌};
ghost use Rattle.sources.specs.Meaning.{iterate};
ghost use Rattle.piles.specs.Requests.{Promise, Served, steps_of};

use crate::request::Request;
use sources::Source;

// Makes each request in turn and stores its reply.
pub fn make_requests<S: Source>(pile: &mut S, requests: &mut [Request])
    ensures { Promise S.meaning S.tick (S.kept pile.old) (S.kept pile.new) requests.old requests.new }
{
    for request in requests.iter_mut() {
        make(pile, request);
    }
}

// Makes one request and stores its reply.
fn make<S: Source>(pile: &mut S, request: &mut Request)
    ensures served { Served (S.meaning (S.kept pile.old)) request.old request.new }
    ensures reached { S.kept pile.new ≡ iterate S.tick (steps_of request.new) (S.kept pile.old) }
{
    let reply = pile.next(request.buffer.as_mut_slice(), request.grant);
    request.reply = Some(reply);
}
