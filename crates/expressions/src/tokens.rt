// The first word of an expression.
ghost use Rattle.std.specs.Prelude.{◌≡◌, ◌≤◌, length};
ghost use Rattle.expressions.specs.Words.{ReadWord};
ghost use Rattle.expressions.specs.Pieces.{Table};
ghost use Rattle.expressions.specs.Walks.{digits_length, first_word_of, mark_at, variable_at};

use crate::classes::is_digit;
use crate::flaws::Flaw;
use crate::level::{Op, Token, WordRead};
use crate::number::Number;
use crate::pieces::symbol_name;
use crate::symbols::Symbols;
use lines::PERCENT;

// How many digits stand first.
#[tactic(auto, using(lines::proofs::Scans::first_found))]
fn digits_length(bytes: &[u8]) -> usize
    ensures value { result ≡ digits_length bytes.now }
    ensures bound { result ≤ length bytes.now }
{
    bytes
        .iter()
        .position(|byte| !is_digit(*byte))
        .unwrap_or(bytes.len())
}

// The operator or parenthesis that a byte is.
fn mark<V: Number>(byte: u8) -> Result<WordRead<V>, Flaw>
    ensures { (σ : Table) → ReadWord V.Number.operations σ (mark_at byte) result }
{
    let token = match byte {
        b'+' => Token::Operator(Op::Plus),
        b'-' => Token::Operator(Op::Minus),
        b'*' => Token::Operator(Op::Times),
        b'/' => Token::Operator(Op::Over),
        b'(' => Token::Open,
        b')' => Token::Close,
        _ => return Err(Flaw::NoForm),
    };
    Ok(WordRead {
        token,
        width: 1,
        known: Ok(()),
    })
}

// The symbol that a % begins, by what follows it.
fn symbol_word<S: Symbols, V: Number>(symbols: &S, rest: &[u8]) -> Result<WordRead<V>, Flaw>
    ensures { ReadWord V.Number.operations (S.Symbols.meaning symbols.now) (variable_at rest.now) result }
{
    let (name, len) = symbol_name(rest)?;
    let symbol = symbols.find(name);
    let known = symbol.as_ref().map(|_| ()).ok_or(Flaw::UnknownSymbol);
    Ok(WordRead {
        token: Token::Factor(V::of_symbol(symbol)),
        width: len + 1,
        known,
    })
}

// The first word of an expression.
pub(crate) fn first_word<S: Symbols, V: Number>(
    symbols: &S,
    text: &[u8],
) -> Result<WordRead<V>, Flaw>
    ensures { ReadWord V.Number.operations (S.Symbols.meaning symbols.now) (first_word_of text.now) result }
{
    match text {
        [byte, ..] if is_digit(*byte) => {
            let width = digits_length(text);
            Ok(WordRead {
                token: Token::Factor(V::of_digits(&text[..width])),
                width,
                known: Ok(()),
            })
        }
        [PERCENT, rest @ ..] => symbol_word(symbols, rest),
        [byte, ..] => mark(*byte),
        [] => Err(Flaw::NoForm),
    }
}
