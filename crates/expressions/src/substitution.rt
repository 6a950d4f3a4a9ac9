// Substitution of a field: its symbols become their texts.
ghost use Rattle.std.specs.Prelude.{◌≡◌, ℕ, true, false, List, ◌++◌, MatchOption};
ghost use Rattle.expressions.specs.Firsts.{Held};
ghost use Rattle.expressions.specs.Pieces.{OneReading, Substituted, given_known, given_text};
ghost use Rattle.expressions.specs.Texts.{text_of};

use crate::flaws::Flaw;
use crate::numbers::shown_as;
use crate::piece::Gives;
use crate::pieces::first_piece;
use crate::symbols::Symbols;
use crate::text::Text;
use arrayvec::ArrayVec;
use lines::overwrite;

// The longest text that a field becomes.
pub const LONGEST_FIELD: usize = 255;

// The text of a field as far as it is written.
type Written = ArrayVec<u8, LONGEST_FIELD>;

// The text of what a piece gives, if its symbol is known.
fn text_given<S: Symbols>(symbols: &S, gives: Gives) -> Option<Text>
    ensures { MatchOption result (given_known (S.Symbols.meaning symbols.now) gives ≡ false) (λ t. (given_known (S.Symbols.meaning symbols.now) gives ≡ true) × (text_of t ≡ given_text (S.Symbols.meaning symbols.now) gives)) }
{
    match gives {
        Gives::Byte(byte) => Some(Text::of(&[byte])),
        Gives::Named(name) => symbols.find(name).map(shown_as),
    }
}

// Writes a text behind what is held, in place, if there is room for both.
fn append(held: &mut Option<Written>, text: &[u8])
    ensures { (t : List ℕ) → Held held.old t → Held held.new (t ++ text.now) }
{
    let Some(written) = held else {
        return;
    };
    if written.try_extend_from_slice(text).is_err() {
        *held = None;
    }
}

// Puts the text of a field into the first bytes of the buffer, and answers its length, or `None` where it is too
// long. A field with none leaves the buffer as it is.
pub fn substitute<S: Symbols>(
    symbols: &S,
    field: &[u8],
    buffer: &mut [u8; LONGEST_FIELD],
) -> Result<Option<usize>, Flaw>
    ensures answer { Substituted (S.Symbols.meaning symbols.now) field.now buffer.old buffer.new result }
    ensures one { OneReading }
{
    let mut held = Some(ArrayVec::new());
    let mut known = Ok(());
    let mut rest = field;
    while !rest.is_empty() {
        let reading = first_piece(rest)?;
        match text_given(symbols, reading.gives) {
            Some(text) => append(&mut held, text.bytes()),
            None => known = Err(Flaw::UnknownSymbol),
        }
        rest = &rest[reading.width..];
    }
    known?;
    let Some(text) = &held else {
        return Ok(None);
    };
    overwrite(buffer, text.as_slice());
    Ok(Some(text.len()))
}
