// Bytes of a line: characters, words and blanks, and the operation field.
#![tactic(auto)]

pub mod field;
pub mod fields;
pub mod kinds;
pub mod names;
pub mod nest;
pub mod nesting;
pub mod operations;
pub mod parts;
pub mod short;
pub mod statement;
pub mod statements;
pub mod texts;

ghost use Rattle.std.specs.Prelude.{◌≡◌, ◌+◌, ◌≤◌, length, take, drop};
ghost use Rattle.lines.specs.Characters.{character, characters, overwritten};
ghost use Rattle.lines.specs.Names.{padded_to};
ghost use Rattle.lines.specs.Fields.{comment, first_at, blanks_length, operation_of, past_blanks, past_word, word};

pub use field::{Fields, Part};
pub use fields::{Division, divide, fields_of};
pub use kinds::Kind;
pub use names::{NAME_BYTES, name_of, padded_name};
pub use nesting::{COMMA, is_closed, outside_end};
pub use operations::kind_of;
pub use parts::Parts;
pub use short::Short;
pub use statement::Statement;
pub use statements::{is_remark, statement_of};
pub use texts::{Lines, split_line};

pub const BLANK: u8 = b' ';

pub const STAR: u8 = b'*';

pub const COLON: u8 = b':';

pub const PERCENT: u8 = b'%';

pub const LINE_END: u8 = b'\n';

const FIRST_CHARACTER: u8 = b' ';

const LAST_CHARACTER: u8 = b'~';

// Is the byte a character of the panel's alphabet?
pub fn is_character(byte: u8) -> bool
    ensures { result ≡ character byte }
{
    (FIRST_CHARACTER..=LAST_CHARACTER).contains(&byte)
}

// Are all bytes characters?
pub fn all_characters(bytes: &[u8]) -> bool
    ensures { result ≡ characters bytes.now }
{
    bytes.iter().all(|byte| is_character(*byte))
}

// How many bytes stand before the first that is this one. Each such search is a chain of its own: a function over any test could
// say of its answer only what the closure gives.
#[tactic(auto, using(crate::proofs::Scans::first_found))]
pub fn first_at(bytes: &[u8], wanted: u8) -> usize
    ensures value { result ≡ first_at wanted bytes.now }
    ensures bound { result ≤ length bytes.now }
{
    bytes
        .iter()
        .position(|byte| *byte == wanted)
        .unwrap_or(bytes.len())
}

// What follows the byte at `end`; nothing where there is no such byte.
pub fn after_byte(bytes: &[u8], end: usize) -> &[u8]
    ensures { result.now ≡ drop (end + 1) bytes.now }
{
    match bytes.split_at_checked(end) {
        Some((_, [_, rest @ ..])) => rest,
        _ => &[],
    }
}

// How many blanks stand before the first byte that is none.
#[tactic(auto, using(crate::proofs::Scans::first_found))]
fn blanks_length(bytes: &[u8]) -> usize
    ensures value { result ≡ blanks_length bytes.now }
    ensures bound { result ≤ length bytes.now }
{
    bytes
        .iter()
        .position(|byte| *byte != BLANK)
        .unwrap_or(bytes.len())
}

// The bytes before the first blank.
pub(crate) fn first_word(bytes: &[u8]) -> &[u8]
    ensures { result.now ≡ word bytes.now }
{
    &bytes[..first_at(bytes, BLANK)]
}

// What follows the first word and the blanks after it.
pub(crate) fn past_word(bytes: &[u8]) -> &[u8]
    ensures { result.now ≡ past_word bytes.now }
{
    past_blanks(&bytes[first_at(bytes, BLANK)..])
}

// What follows the blanks that stand first.
pub(crate) fn past_blanks(bytes: &[u8]) -> &[u8]
    ensures { result.now ≡ past_blanks bytes.now }
{
    &bytes[blanks_length(bytes)..]
}

// Is the line a comment, with a star in column 1?
pub fn is_comment(line: &[u8]) -> bool
    ensures { result ≡ comment line.now }
{
    line.first() == Some(&STAR)
}

// The operation field of a line: empty for a comment and for a line that has none.
pub fn operation(line: &[u8]) -> &[u8]
    ensures { result.now ≡ operation_of line.now }
{
    if is_comment(line) {
        return &[];
    }
    first_word(past_word(line))
}

// Writes a text over the first bytes; one that is too long is not written.
pub fn overwrite(bytes: &mut [u8], text: &[u8])
    ensures { bytes.new ≡ overwritten bytes.old text.now }
{
    let len = text.len();
    if len <= bytes.len() {
        bytes[..len].copy_from_slice(text);
    }
}

// Writes a text over bytes, as far as there is room, and blanks behind it.
pub fn write_padded(bytes: &mut [u8], text: &[u8])
    ensures { bytes.new ≡ padded_to (length bytes.old) text.now }
{
    bytes.fill(BLANK);
    overwrite(bytes, front(text, bytes.len()));
}

// The first bytes, or all where there are fewer.
pub fn front(bytes: &[u8], length: usize) -> &[u8]
    ensures { result.now ≡ take length bytes.now }
{
    bytes.get(..length).unwrap_or(bytes)
}
