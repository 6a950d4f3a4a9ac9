// What is wrong with a part of a statement.

// What is wrong. Its number is `flaw_number` of specs/Flaws.
#[derive(Clone, Copy, Debug, PartialEq, Eq)]
pub enum Flaw {
    NoForm,
    UnknownSymbol,
    NotDigits,
    OutOfRange,
    ZeroDivisor,
}

// The number that a fault with the flaw tells.
impl From<Flaw> for u16 {
    ghost use Rattle.std.specs.Prelude.{◌≡◌};
    ghost use Rattle.expressions.specs.Flaws.{flaw_number};

    ghost from_gives = { λ flaw number. number ≡ flaw_number flaw };

    fn from(flaw: Flaw) -> u16 {
        match flaw {
            Flaw::NoForm => 31,
            Flaw::UnknownSymbol => 32,
            Flaw::NotDigits => 36,
            Flaw::OutOfRange => 37,
            Flaw::ZeroDivisor => 38,
        }
    }
}
