// Why a source ends: End, or a fault with its number and place.
ghost use Rattle.std.specs.Prelude.{◌≡◌};
ghost use Rattle.sources.specs.Faults.{cause_number, counted, deeper, raised};

// The highest line number that a fault tells: the count stops there.
pub const LAST_LINE: u32 = 999_999_999;

// What is wrong with a file. Its number is `cause_number` of specs/Faults.
#[derive(Clone, Copy, Debug, PartialEq, Eq)]
pub enum Cause {
    LineTooLong,
    BadCharacter,
}

impl From<Cause> for u16 {
    ghost from_gives = { λ cause number. number ≡ cause_number cause };

    fn from(cause: Cause) -> u16 {
        match cause {
            Cause::LineTooLong => 3,
            Cause::BadCharacter => 4,
        }
    }
}

// The number of a definition in its library, from 1; 0 where no call is open.
#[derive(Clone, Copy, Debug, PartialEq, Eq)]
pub struct DefinitionNumber(pub u16);

// The number of a statement in its definition, from 1; 0 where no call is open.
#[derive(Clone, Copy, Debug, PartialEq, Eq)]
pub struct StatementNumber(pub u16);

#[derive(Clone, Copy, Debug, PartialEq, Eq)]
pub struct Fault {
    pub cause: Cause,
    // how many layers it was passed up through, at most 255
    pub depth: u8,
    // how many lines its finder had taken from directly below, the faulty one too
    pub line: u32,
    pub definition: DefinitionNumber,
    pub statement: StatementNumber,
}

impl Fault {
    fn one_deeper(self) -> Fault
        ensures { result ≡ deeper self }
    {
        Fault {
            depth: self.depth.saturating_add(1),
            ..self
        }
    }
}

// Why a source ends: Ok(()) is End.
pub type Ending = Result<(), Fault>;

// The ending as the layer above tells it: a fault is one deeper, up to 255.
pub fn passed_up(ending: Ending) -> Ending
    ensures { result ≡ raised ending }
{
    ending.map_err(Fault::one_deeper)
}

// One line more is taken; the count stops at the highest line number.
pub fn count_line(taken: u32) -> u32
    ensures { result ≡ counted taken }
{
    taken.saturating_add(1).min(LAST_LINE)
}
