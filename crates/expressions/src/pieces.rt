// The first piece of a field.
ghost use Rattle.std.specs.Prelude.{◌≡◌, ◌≤◌, length, if◌then◌else◌, Some, Ok, MatchResult};
ghost use Rattle.expressions.specs.Firsts.{after_percent, first, name_at, name_length, reading_of};
ghost use Rattle.expressions.specs.Pieces.{begins, colons, letter_first, name_of, plain, single};

use crate::classes::{Class, class_of, is_letter, is_letter_or_digit};
use crate::flaws::Flaw;
use crate::piece::{Gives, Reading};
use lines::{BLANK, COLON, NAME_BYTES, PERCENT, overwrite};

// The most letters and digits after a symbol's %.
const MOST_AFTER: usize = NAME_BYTES - 1;

// Do the bytes begin with this one?
fn begins_with(bytes: &[u8], byte: u8) -> bool
    ensures { result ≡ begins byte bytes.now }
{
    matches!(bytes, [first, ..] if *first == byte)
}

// Do the bytes begin with a letter?
fn letter_first(bytes: &[u8]) -> bool
    ensures { result ≡ letter_first bytes.now }
{
    matches!(bytes, [first, ..] if is_letter(*first))
}

// Do the bytes begin with a colon that no colon follows?
fn single_colon(bytes: &[u8]) -> bool
    ensures { result ≡ single bytes.now }
{
    matches!(bytes, [COLON, rest @ ..] if !begins_with(rest, COLON))
}

// How many letters and digits stand first.
#[tactic(auto, using(lines::proofs::Scans::first_found))]
fn name_length(bytes: &[u8]) -> usize
    ensures value { result ≡ name_length bytes.now }
    ensures bound { result ≤ length bytes.now }
{
    bytes
        .iter()
        .position(|byte| !is_letter_or_digit(*byte))
        .unwrap_or(bytes.len())
}

// The name of a symbol: % and its letters and digits, filled with blanks.
fn name_of(letters: &[u8]) -> [u8; NAME_BYTES]
    requires { length letters.now ≤ 7 }
    ensures { result ≡ name_of letters.now }
{
    let mut name = [BLANK; NAME_BYTES];
    name[0] = PERCENT;
    overwrite(&mut name[1..], letters);
    name
}

// The name of the symbol that stands after a %, and how many letters and digits it has there.
pub(crate) fn symbol_name(rest: &[u8]) -> Result<([u8; NAME_BYTES], usize), Flaw>
    ensures value { result ≡ name_at rest.now }
    ensures bound { MatchResult result (λ n. n.1 ≤ length rest.now) (λ _. Unit {0}) }
{
    let len = name_length(rest);
    if !letter_first(rest) || len > MOST_AFTER {
        return Err(Flaw::NoForm);
    }
    Ok((name_of(&rest[..len]), len))
}

// The piece that a % begins, by what follows it.
fn after_percent(rest: &[u8]) -> Result<Reading, Flaw>
    ensures { result ≡ reading_of (after_percent rest.now) }
{
    if begins_with(rest, PERCENT) {
        return Ok(Reading {
            gives: Gives::Byte(PERCENT),
            width: 2,
        });
    }
    let (name, len) = symbol_name(rest)?;
    let width = if single_colon(&rest[len..]) {
        len + 2
    } else {
        len + 1
    };
    Ok(Reading {
        gives: Gives::Named(name),
        width,
    })
}

// The first piece of a field; an empty field has none.
pub(crate) fn first_piece(field: &[u8]) -> Result<Reading, Flaw>
    ensures { result ≡ reading_of (first field.now) }
{
    let [byte, rest @ ..] = field else {
        return Err(Flaw::NoForm);
    };
    match class_of(char::from(*byte)) {
        Class::Variable => after_percent(rest),
        Class::Colon => Ok(after_colon(rest)),
        _ => Ok(Reading {
            gives: Gives::Byte(*byte),
            width: 1,
        }),
    }
}

// The piece that a colon begins, by what follows it.
fn after_colon(rest: &[u8]) -> Reading
    ensures { Ok result ≡ reading_of (Some (if begins 58 rest.now then colons else plain 58)) }
{
    if begins_with(rest, COLON) {
        return Reading {
            gives: Gives::Byte(COLON),
            width: 2,
        };
    }
    Reading {
        gives: Gives::Byte(COLON),
        width: 1,
    }
}
