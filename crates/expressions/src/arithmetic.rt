// Arithmetic: an expression worked out from the left in any kind of number.
ghost use Rattle.std.specs.Prelude.{length};
ghost use Rattle.expressions.specs.Trees.{OneTree, Worked};

use crate::flaws::Flaw;
use crate::level::{Level, Walk};
use crate::number::Number;
use crate::symbols::Symbols;
use crate::tokens::first_word;
use crate::walks::fresh_level;

// The value of an expression; the table has a row for each parenthesis that may be open at a time.
#[tactic(auto, using(crate::proofs::Working::one_tree, crate::proofs::Working::word_within, crate::proofs::Working::word_shorter))]
pub fn work_out<S: Symbols, V: Number>(
    symbols: &S,
    text: &[u8],
    levels: &mut [Level<V>],
) -> Result<V, Flaw>
    ensures answer { Worked V.Number.operations (S.Symbols.meaning symbols.now) (length levels.old) text.now result }
    ensures one { OneTree }
{
    let mut walk = Walk {
        level: fresh_level(),
        after: None,
        depth: 0,
        levels,
    };
    let mut known = Ok(());
    let mut rest = text;
    while !rest.is_empty() {
        let word = first_word(symbols, rest)?;
        walk.take(word.token)?;
        known = known.and(word.known);
        rest = &rest[word.width..];
    }
    let value = walk.ended()?;
    known?;
    Ok(value)
}
