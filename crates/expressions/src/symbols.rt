// Tables of symbols: known by what each name means there.
ghost use Rattle.std.specs.Prelude.{◌≡◌, ℕ, List, Option};
ghost use Rattle.expressions.specs.declared.symbol.Symbol.{Symbol};

use crate::symbol::Symbol;
use lines::NAME_BYTES;

pub trait Symbols {
    // what a name of eight bytes means: nothing, or a kind with a value
    ghost meaning: { Self → List ℕ → Option Symbol };

    fn find(&self, name: [u8; NAME_BYTES]) -> Option<Symbol>
        ensures { result ≡ meaning self.now name };
}
