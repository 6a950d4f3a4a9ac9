// What every machine owes.
ghost use Rattle.std.specs.Prelude.{◌≡◌};
ghost use Rattle.sources.specs.Hearings.{text_of};
ghost use Rattle.layers.specs.Rules.{Falls, Rule};
ghost use Rattle.layers.specs.Engine.{did};

use crate::machine::Deed;
use sources::{Ending, Line};

pub trait Machine {
    ghost State: { Type 0 };

    ghost state: { Self → State };

    ghost rule: { Rule State };

    // work comes to an end
    ghost falls: { Falls rule };

    // Does it work by itself, or take a line from below?
    fn busy(&self) -> bool
        ensures { result ≡ rule.busy (state self.now) };

    // A line from below, at no cost of its own.
    fn take(&mut self, line: &Line) -> Deed
        ensures { rule.takes (state self.old) (text_of line.now) ≡ did result (state self.new) };

    // One step of work.
    fn work(&mut self) -> Deed
        ensures { rule.works (state self.old) ≡ did result (state self.new) };

    // What it makes of the ending from below.
    fn close(&self, ending: Ending) -> Ending
        ensures { result ≡ rule.closes (state self.now) ending };
}
