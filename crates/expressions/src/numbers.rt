// Text as a number, and a number as text.
ghost use Rattle.std.specs.Prelude.{◌≡◌, ◌+◌, ◌%◌};
ghost use Rattle.std.specs.Fmt.{signed_decimal};
ghost use Rattle.expressions.specs.Classes.{digits};
ghost use Rattle.expressions.specs.Numbers.{four_digits, number_of, ranged, shown, value_of};
ghost use Rattle.expressions.specs.Texts.{text_of};

use crate::classes::is_digit;
use crate::flaws::Flaw;
use crate::symbol::{CallNumber, Symbol};
use crate::text::Text;

// The most digits that a text has which is used as a number.
const MOST_DIGITS: usize = 10;

// Are all bytes digits?
pub fn all_digits(text: &[u8]) -> bool
    ensures { result ≡ digits text.now }
{
    text.iter().all(|byte| is_digit(*byte))
}

// The number that digits write, of any count, if it is in range. Digit by digit: `parse` reads a str, and these are bytes.
pub fn written_number(text: &[u8]) -> Result<i32, Flaw>
    ensures { result ≡ ranged (value_of text.now) }
{
    // What the digits write so far, wide enough for one digit more, and the same as a number.
    let mut wide: u64 = 0;
    let mut value: i32 = 0;
    for byte in text {
        wide = wide * 10 + u64::from(byte.saturating_sub(b'0'));
        value = i32::try_from(wide).or(Err(Flaw::OutOfRange))?;
    }
    Ok(value)
}

// A text used as a number: one to ten digits, and in range.
pub fn number_of(text: &[u8]) -> Result<i32, Flaw>
    ensures { result ≡ number_of text.now }
{
    if text.is_empty() || text.len() > MOST_DIGITS || !all_digits(text) {
        return Err(Flaw::NotDigits);
    }
    written_number(text)
}

// A number as text: - and no leading zeros.
pub fn number_text(number: i32) -> Text
    ensures { text_of result ≡ signed_decimal number }
{
    let mut buffer = itoa::Buffer::new();
    Text::of(buffer.format(number).as_bytes())
}

// The last digit of a number.
fn last_digit(number: u16) -> u8
    ensures { result ≡ 48 + number % 10 }
{
    // Narrowed by `as`, which is proved: try_from would add a case that cannot happen.
    b'0' + (number % 10) as u8
}

// The last four digits of a call's number, zeros kept.
pub fn call_text(number: CallNumber) -> Text
    ensures { text_of result ≡ four_digits number.0 }
{
    // Digit by digit. Zeros stay, which itoa drops, and `format!` needs a heap.
    let n = number.0;
    Text::of(&[
        last_digit(n / 1000),
        last_digit(n / 100),
        last_digit(n / 10),
        last_digit(n),
    ])
}

// The text that a symbol becomes.
pub fn shown_as(symbol: Symbol) -> Text
    ensures { text_of result ≡ shown symbol }
{
    match symbol {
        Symbol::Parameter(text) | Symbol::Characters(text) => text,
        Symbol::Arithmetic(number) => number_text(number),
        Symbol::Bit(bit) => Text::of(&[b'0' + u8::from(bit)]),
        Symbol::Call(number) => call_text(number),
    }
}
