// How the text source reads its bytes.
ghost use Rattle.std.specs.Prelude.{◌≡◌, ℕ, ◌≤◌, None, Err};
ghost use Rattle.sources.specs.Faults.{found};
ghost use Rattle.sources.specs.Hearings.{Hears, HearsOf};
ghost use Rattle.sources.specs.Meaning.{Remains, pay, spend};
ghost use Rattle.sources.specs.Texts.{left_in, text_remains, text_paced};

use crate::answers::{Answer, Reply, Told};
use crate::faults::{Cause, DefinitionNumber, Fault, StatementNumber, count_line};
use crate::line::Line;
use crate::requests::{admit, deliver};
use crate::source::Source;
use crate::text::TextSource;
use lines::Lines;

impl<'a> TextSource<'a> {
    // The text from its first line on.
    pub fn new(text: &'a [u8]) -> TextSource<'a>
        ensures { left_in result ≡ text_remains text.now }
    {
        TextSource {
            lines: Lines::of(text),
            taken: 0,
            told: None,
        }
    }

    fn turn(&mut self, grant: u32) -> Answer<Told<Line>>
        ensures hears { Hears (left_in self.old) grant result }
        ensures reached { left_in self.new ≡ spend (left_in self.old) result.spent }
    {
        if let Some(ending) = self.told {
            return Answer {
                spent: 0,
                told: Told::Ended(ending),
            };
        }
        if grant == 0 {
            return Answer {
                spent: 0,
                told: Told::Held,
            };
        }
        Answer {
            spent: 1,
            told: self.take_line(),
        }
    }

    // The step that takes the next line, or finds the ending.
    fn take_line(&mut self) -> Told<Line>
        requires { self.old.told ≡ None }
        ensures hears { (g : ℕ) → 1 ≤ g → HearsOf (left_in self.old) g 1 result }
        ensures reached { left_in self.new ≡ pay (left_in self.old) }
    {
        let Some(text) = self.lines.next() else {
            self.told = Some(Ok(()));
            return Told::Ended(Ok(()));
        };
        // Counted beside the iterator, because the count stops at the highest line number.
        let taken = count_line(self.taken);
        match Line::try_from(text) {
            Ok(line) => {
                self.taken = taken;
                Told::Line(line)
            }
            Err(cause) => {
                let ending = Err(found_in(cause, taken));
                self.told = Some(ending);
                Told::Ended(ending)
            }
        }
    }
}

// The fault of a line that is read from a text.
fn found_in(cause: Cause, line: u32) -> Fault
    ensures { Err result ≡ found cause line }
{
    Fault {
        cause,
        depth: 0,
        line,
        // Numbers and no Option: a fault is told by five numbers, 0 where no call is open.
        definition: DefinitionNumber(0),
        statement: StatementNumber(0),
    }
}

impl Source for TextSource<'_> {
    ghost Kept = { Remains };

    ghost kept = { left_in };

    ghost meaning = { λ m. m };

    ghost tick = { pay };

    ghost paced = { text_paced };

    // The same two lines as a layer's. A `next` over a `turn` in the trait would hold a call that requires an admitted
    // grant, and every source would owe two calls.
    fn next(&mut self, buffer: &mut [u8], grant: u32) -> Reply {
        admit(buffer, grant)?;
        deliver(&self.turn(grant), buffer)
    }
}
