// Words and symbols.
ghost use Rattle.std.specs.Prelude.{◌≡◌};
ghost use Rattle.std.specs.List.{list_all};
ghost use Rattle.expressions.specs.Classes.{letter_or_digit};
ghost use Rattle.libraries.specs.Words.{is_system, is_variable, is_word};

use expressions::classes::{is_letter, is_letter_or_digit};
use lines::{NAME_BYTES, PERCENT};

// The most letters and digits after the % of a symbol, a name with it.
const SYMBOL_LETTERS: usize = NAME_BYTES - 1;

const SYSTEM: &[u8] = b"%SYS";

// Letters and digits only?
fn is_plain(bytes: &[u8]) -> bool
    ensures { result ≡ list_all letter_or_digit bytes.now }
{
    bytes.iter().all(|byte| is_letter_or_digit(*byte))
}

// A letter, and then letters and digits?
pub(crate) fn is_word(bytes: &[u8]) -> bool
    ensures { result ≡ is_word bytes.now }
{
    let [first, rest @ ..] = bytes else {
        return false;
    };
    is_letter(*first) && is_plain(rest)
}

// A variable symbol?
pub(crate) fn is_variable(bytes: &[u8]) -> bool
    ensures { result ≡ is_variable bytes.now }
{
    let [first, rest @ ..] = bytes else {
        return false;
    };
    *first == PERCENT && is_word(rest) && rest.len() <= SYMBOL_LETTERS
}

// A symbol of the processor's own?
pub(crate) fn is_system(bytes: &[u8]) -> bool
    ensures { result ≡ is_system bytes.now }
{
    bytes.starts_with(SYSTEM)
}
