// Lawful prototypes.
ghost use Rattle.std.specs.Prelude.{◌≡◌};
ghost use Rattle.libraries.specs.Prototypes.{is_default, is_macro_name, is_parameter, lawful_prototype};

use crate::parameters::{parameters_fit, seen_in_name};
use crate::words::{is_system, is_variable, is_word};
use expressions::text::LONGEST_TEXT;
use lines::{Kind, NAME_BYTES, fields_of, is_closed, kind_of};

// The most parameters of a macro, the name parameter too.
pub const PARAMETERS: usize = 12;

// The most characters of a default or of a value.
pub const VALUE_BYTES: usize = LONGEST_TEXT;

pub(crate) const EQUALS: u8 = b'=';

// A variable symbol that does not begin %SYS?
pub(crate) fn is_parameter(bytes: &[u8]) -> bool
    ensures { result ≡ is_parameter bytes.now }
{
    is_variable(bytes) && !is_system(bytes)
}

// At most 48 characters, closed?
pub(crate) fn is_default(bytes: &[u8]) -> bool
    ensures { result ≡ is_default bytes.now }
{
    bytes.len() <= VALUE_BYTES && is_closed(bytes)
}

// One to eight letters or digits, first a letter, and not reserved?
fn is_macro_name(bytes: &[u8]) -> bool
    ensures { result ≡ is_macro_name bytes.now }
{
    is_word(bytes) && bytes.len() <= NAME_BYTES && matches!(kind_of(bytes), Kind::Model)
}

// Is the line a lawful prototype?
pub fn is_prototype(line: &[u8]) -> bool
    ensures { result ≡ lawful_prototype line.now }
{
    let Some(fields) = fields_of(line) else {
        return false;
    };
    let Some(seen) = seen_in_name(fields.name.bytes) else {
        return false;
    };
    is_macro_name(fields.operation.bytes) && parameters_fit(fields.operand.bytes, seen)
}
