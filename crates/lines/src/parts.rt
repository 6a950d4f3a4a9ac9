// The parts of an operand.
ghost use Rattle.std.specs.Prelude.{◌≡◌};
ghost use Rattle.std.specs.Iterator.{YieldsFirstRef, item_count};
ghost use Rattle.lines.specs.Division.{left, parts_of};

use crate::fields::divide;
use std::marker::Model;

// The parts of an operand, one after the other: a clause sees those that are left.
#[derive(Drop)]
pub struct Parts<'a> {
    // from the next part on; none after the last
    rest: Option<&'a [u8]>,
}

impl<'a> Model for Parts<'a> {
    ghost use Rattle.std.specs.Prelude.{List, ℕ};
    ghost use Rattle.lines.specs.Division.{rest_of};

    ghost Value = { List (List ℕ) };

    ghost view = { λ parts. rest_of parts.rest };
}

impl<'a> Parts<'a> {
    // The parts of an operand, from its first on; an empty operand has none.
    pub fn of(operand: &'a [u8]) -> Parts<'a>
        ensures { result ≡ parts_of operand.now }
    {
        Parts {
            rest: (!operand.is_empty()).then_some(operand),
        }
    }
}

impl<'a> Iterator for Parts<'a> {
    type Item = &'a [u8];

    ghost next_gives = { YieldsFirstRef left };

    ghost remaining = { item_count left };

    fn next(&mut self) -> Option<&'a [u8]> {
        let division = divide(self.rest?);
        self.rest = division.rest;
        Some(division.part)
    }
}
