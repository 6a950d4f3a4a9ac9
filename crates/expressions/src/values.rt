// The numbers of expressions: from -2147483648 to 2147483647, each step in range.
ghost use Rattle.std.specs.Prelude.{◌≡◌, ℕ, List, Option};
ghost use Rattle.expressions.specs.Arithmetic.{Answers, arithmetic, symbol_value, whole_applied, whole_signed};
ghost use Rattle.expressions.specs.Trees.{OneTree};

use crate::arithmetic::work_out;
use crate::flaws::Flaw;
use crate::level::{Level, Op};
use crate::number::Number;
use crate::numbers::{number_of, written_number};
use crate::symbol::Symbol;
use crate::symbols::Symbols;
use crate::walks::fresh_level;

// The most parentheses that may be open at a time.
pub const MOST_LEVELS: usize = 15;

// A number that is worked out, or what was first found wrong on the way to it.
pub type Value = Result<i32, Flaw>;

// A sign before a number: a match, as only one of the four changes it.
fn with_sign(sign: Op, number: i32) -> Value
    ensures { result ≡ whole_signed sign number }
{
    match sign {
        Op::Minus => number.checked_neg().ok_or(Flaw::OutOfRange),
        Op::Plus | Op::Times | Op::Over => Ok(number),
    }
}

fn both_sides(left: i32, op: Op, right: i32) -> Value
    ensures { result ≡ whole_applied op left right }
{
    // A match: a table of closures would say the same four lines.
    let fitted = match op {
        Op::Plus => left.checked_add(right),
        Op::Minus => left.checked_sub(right),
        Op::Times => left.checked_mul(right),
        Op::Over if right == 0 => return Err(Flaw::ZeroDivisor),
        Op::Over => left.checked_div(right),
    };
    fitted.ok_or(Flaw::OutOfRange)
}

// The number that a symbol stands for: its number, its bit, or its text used as a number.
fn symbol_value(symbol: Symbol) -> Value
    ensures { result ≡ symbol_value symbol }
{
    match symbol {
        Symbol::Parameter(text) | Symbol::Characters(text) => number_of(text.bytes()),
        Symbol::Arithmetic(number) => Ok(number),
        Symbol::Bit(bit) => Ok(i32::from(bit)),
        Symbol::Call(number) => Ok(i32::from(number.0)),
    }
}

impl Number for Value {
    ghost operations = { arithmetic };

    fn of_digits(digits: &[u8]) -> Value {
        written_number(digits)
    }

    fn of_symbol(symbol: Option<Symbol>) -> Value {
        symbol_value(symbol.ok_or(Flaw::UnknownSymbol)?)
    }

    fn signed(self, sign: Op) -> Value {
        with_sign(sign, self?)
    }

    fn applied(self, op: Op, right: Value) -> Value {
        both_sides(self?, op, right?)
    }
}

// The number that an expression gives, or the first flaw: of its form, of its symbols, of its values from the left.
#[tactic(auto, using(crate::proofs::Fine::answered))]
pub fn evaluate<S: Symbols>(symbols: &S, text: &[u8]) -> Result<i32, Flaw>
    ensures answer { Answers (S.Symbols.meaning symbols.now) text.now result }
    ensures one { OneTree }
{
    let mut levels: [Level<Value>; MOST_LEVELS] = [fresh_level(); MOST_LEVELS];
    work_out(symbols, text, &mut levels)?
}
