// Names of eight bytes, filled with blanks on the right.
ghost use Rattle.std.specs.Prelude.{◌≡◌};
ghost use Rattle.lines.specs.Names.{named, padded};

use crate::{BLANK, write_padded};

// The bytes of a macro name or a symbol name. A name is an array of them by value, which is compared and copied whole.
pub const NAME_BYTES: usize = 8;

// The first eight bytes, filled with blanks.
pub fn padded_name(bytes: &[u8]) -> [u8; NAME_BYTES]
    ensures { result ≡ padded bytes.now }
{
    let mut name = [BLANK; NAME_BYTES];
    write_padded(&mut name, bytes);
    name
}

// These bytes as a name, if they are at most eight.
pub fn name_of(bytes: &[u8]) -> Option<[u8; NAME_BYTES]>
    ensures { result ≡ named bytes.now }
{
    (bytes.len() <= NAME_BYTES).then_some(padded_name(bytes))
}
