// The five numbers that tell a fault.
ghost use Rattle.std.specs.Prelude.{◌≡◌, Some};
ghost use Rattle.listing.specs.Listing.{parts_of, parts_text};

use sources::Fault;
use std::fmt;

// A fault's number, its depth, and where it is. Beside Fault, because what is wrong with a file as a whole is told so too.
#[derive(Clone, Copy, Debug, PartialEq, Eq)]
pub struct FaultParts {
    pub number: u16,
    pub depth: u8,
    pub line: u32,
    pub definition: u16,
    pub statement: u16,
}

impl FaultParts {
    // What is told of a site file with more than SITE_BYTES bytes.
    pub const TOO_LARGE: FaultParts = FaultParts {
        number: 17,
        depth: 0,
        line: 0,
        definition: 0,
        statement: 0,
    };
}

impl From<Fault> for FaultParts {
    ghost from_gives = { λ fault parts. parts ≡ parts_of fault };

    fn from(fault: Fault) -> FaultParts {
        FaultParts {
            number: fault.cause.into(),
            depth: fault.depth,
            line: fault.line,
            definition: fault.definition.0,
            statement: fault.statement.0,
        }
    }
}

// The numbers, parted by blanks.
impl fmt::Display for FaultParts {
    ghost output = { λ parts. Some (parts_text parts) };

    fn fmt<W: fmt::Write>(&self, f: &mut fmt::Formatter<W>) -> fmt::Result {
        let FaultParts {
            number,
            depth,
            line,
            definition,
            statement,
        } = *self;
        write!(f, "{number} {depth} {line} {definition} {statement}")
    }
}
