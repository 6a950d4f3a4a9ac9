// The parameters of a prototype, one after the other.
ghost use Rattle.std.specs.Prelude.{◌≡◌, true, false, MatchOption};
ghost use Rattle.libraries.specs.Prototypes.{all_fit, and_one, fits, name_fits, name_seen, parameters};
ghost use Rattle.lines.specs.Division.{parts_of};

use crate::prototypes::{EQUALS, is_default, is_parameter};
use crate::seen::Seen;
use crate::table::Names;
use lines::{Parts, after_byte, first_at, front, padded_name};

impl Seen {
    // Takes one parameter, if it fits those before it. A bool and no Result, because nobody asks why it does not.
    fn take(&mut self, part: &[u8]) -> bool
        ensures value { result ≡ fits self.old.late self.old.names part.now }
        ensures seen { result ≡ true → self.new ≡ and_one self.old part.now }
    {
        let at = first_at(part, EQUALS);
        // Whether there is a default stands beside it: the question of a late one is asked where there is none, too.
        let has_default = at < part.len();
        let symbol = front(part, at);
        let name = padded_name(symbol);
        let fine = is_parameter(symbol)
            && is_default(after_byte(part, at))
            && (has_default || !self.late)
            && !self.names.has(name);
        if !fine {
            return false;
        }
        // A second test, because in one test with the first the proof does not close.
        if self.names.try_push(name).is_err() {
            return false;
        }
        self.late |= has_default;
        true
    }
}

// Do all parameters of an operand fit, after those seen?
pub(crate) fn parameters_fit(operand: &[u8], before: Seen) -> bool
    ensures { result ≡ all_fit before.late before.names (parts_of operand.now) }
{
    let mut seen = before;
    for part in Parts::of(operand) {
        if !seen.take(part) {
            return false;
        }
    }
    true
}

// What is seen before the operand: the name parameter, if there is one. None where it is not lawful.
pub(crate) fn seen_in_name(name: &[u8]) -> Option<Seen>
    ensures { MatchOption result (name_fits name.now ≡ false) (λ s. (name_fits name.now ≡ true) × (s ≡ parameters false (name_seen name.now))) }
{
    let mut names = Names::new();
    if !name.is_empty() {
        if !is_parameter(name) {
            return None;
        }
        let _ = names.try_push(padded_name(name));
    }
    Some(Seen { names, late: false })
}
