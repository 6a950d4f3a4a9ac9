// Kinds of number: known by what their operations give.
ghost use Rattle.std.specs.Prelude.{◌≡◌};
ghost use Rattle.expressions.specs.Kinds.{Operations};

use crate::level::Op;
use crate::symbol::Symbol;

pub trait Number: Copy {
    // what each operation gives
    ghost operations: { Operations Self };

    // the number that digits write
    fn of_digits(digits: &[u8]) -> Self
        ensures { result ≡ operations.digits digits.now };

    // the number that a symbol stands for
    fn of_symbol(symbol: Option<Symbol>) -> Self
        ensures { result ≡ operations.symbol symbol };

    // the number with a sign before it
    fn signed(self, sign: Op) -> Self
        ensures { result ≡ operations.signed sign self };

    // the number, an operator and another
    fn applied(self, op: Op, right: Self) -> Self
        ensures { result ≡ operations.applied op self right };
}
