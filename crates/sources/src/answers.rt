// What a request is answered: a refusal, or the steps spent with a line, an ending or neither.
use crate::faults::Ending;

// A bad call. Its number is `refusal_number` of specs/Faults.
#[derive(Clone, Copy, Debug, PartialEq, Eq)]
pub enum Refusal {
    ShortBuffer,
    LargeGrant,
}

impl From<Refusal> for u16 {
    ghost use Rattle.std.specs.Prelude.{◌≡◌};
    ghost use Rattle.sources.specs.Faults.{refusal_number};

    ghost from_gives = { λ refusal number. number ≡ refusal_number refusal };

    fn from(refusal: Refusal) -> u16 {
        match refusal {
            Refusal::ShortBuffer => 1,
            Refusal::LargeGrant => 2,
        }
    }
}

// What a request told. A line is told as an L: a caller gets its length, and a layer the line itself.
#[derive(Clone, Copy, Drop, Debug, PartialEq, Eq)]
pub enum Told<L> {
    Line(L),
    // the price is not yet paid
    Held,
    Ended(Ending),
}

impl<L> Told<L> {
    ghost use Rattle.sources.specs.Replies.{AtLine, Mapped};

    // The line as the function makes it; held over and an ending stay as they are.
    pub(crate) fn map<M, F: FnOnce(L) -> M>(self, f: F) -> Told<M>
        requires { AtLine (F.pre f) self }
        ensures { Mapped (F.post f) self result }
    {
        match self {
            Told::Line(line) => Told::Line(f(line)),
            Told::Held => Told::Held,
            Told::Ended(ending) => Told::Ended(ending),
        }
    }
}

// The steps spent, and what was told by them.
#[derive(Clone, Copy, Drop, Debug, PartialEq, Eq)]
pub struct Answer<T> {
    pub spent: u32,
    pub told: T,
}

// What a caller gets: a line of the length told stands in its buffer.
pub type Reply = Result<Answer<Told<usize>>, Refusal>;
