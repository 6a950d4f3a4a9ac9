// Two layers of one kind over sources that mean the same, asked the same.
ghost use Rattle.std.specs.Prelude.{◌≡◌};
ghost use Rattle.piles.specs.Requests.{SameAnswers, SameRequests};

use crate::request::Request;
use crate::requests::make_requests;
use layers::{Machine, over};
use sources::Source;

// Makes a list of requests to each of two fresh layers, over sources of any two kinds.
pub fn ask_both<S: Source + Drop, R: Source + Drop, M: Machine + Drop>(
    below: S,
    other: R,
    machine: M,
    twin: M,
    requests: &mut [Request],
    others: &mut [Request],
)
    ensures { S.meaning (S.kept below) ≡ R.meaning (R.kept other) → M.state machine ≡ M.state twin → SameRequests requests.old others.old → SameAnswers requests.new others.new }
{
    let mut pile = over(below, machine);
    let mut copy = over(other, twin);
    make_requests(&mut pile, requests);
    make_requests(&mut copy, others);
}
