// Bytes outside apostrophes and parentheses.
ghost use Rattle.std.specs.Prelude.{◌≡◌, ◌+◌, ◌^◌, ◌<◌, ◌≤◌, length};
ghost use Rattle.lines.specs.Nesting.{closed, end_by, outside, past, start};

use crate::nest::Nest;

const APOSTROPHE: u8 = b'\'';

const OPEN: u8 = b'(';

const CLOSE: u8 = b')';

pub const COMMA: u8 = b',';

impl Nest {
    fn is_outside(self) -> bool
        ensures { result ≡ outside self }
    {
        !self.quoted && self.depth == 0
    }

    // One byte more.
    fn past(self, byte: u8) -> Nest
        requires { self.depth + 1 < 2 ^ 64 }
        ensures value { result ≡ past self byte }
        ensures bound { result.depth ≤ self.depth + 1 }
    {
        match byte {
            APOSTROPHE => Nest {
                quoted: !self.quoted,
                ..self
            },
            _ if self.quoted => self,
            OPEN => Nest {
                depth: self.depth + 1,
                ..self
            },
            CLOSE => Nest {
                depth: self.depth.saturating_sub(1),
                ..self
            },
            _ => self,
        }
    }
}

// How many bytes stand before the first such byte outside apostrophes and parentheses.
pub fn outside_end(bytes: &[u8], stop: u8) -> usize
    ensures value { result ≡ end_by stop start bytes.now }
    ensures bound { result ≤ length bytes.now }
{
    let mut nest = Nest::default();
    // A loop with its index, because how deep each byte stands follows from all bytes before it; position sees one byte alone.
    for (i, byte) in bytes.iter().enumerate() {
        let stops = (*byte == stop) & nest.is_outside();
        if stops {
            return i;
        }
        nest = nest.past(*byte);
    }
    bytes.len()
}

// Are apostrophes and parentheses closed?
pub fn is_closed(bytes: &[u8]) -> bool
    ensures { result ≡ closed bytes.now }
{
    let mut nest = Nest::default();
    // A loop and no fold, because one byte more asks for a bound on the depth, which the loop's invariant tells.
    for byte in bytes {
        nest = nest.past(*byte);
    }
    nest.is_outside()
}
