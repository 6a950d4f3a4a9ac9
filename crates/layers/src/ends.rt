// The END layer: hands out the lines below up to and with the first whose operation is END.
ghost use Rattle.std.specs.Prelude.{◌≡◌, Bool};
ghost use Rattle.sources.specs.Meaning.{Untold};
ghost use Rattle.layers.specs.Ends.{end_remains, end_rule, end_state, end_falls, is_end};
ghost use Rattle.layers.specs.Engine.{keeping, laid_meaning};

use crate::end::EndMachine;
use crate::layered::{Layered, over};
use crate::machine::Deed;
use crate::machines::Machine;
use lines::operation;
use sources::{Ending, Line, Source, passed_up};

const END: &[u8] = b"END";

// Is the operation of the line END?
fn is_end(line: &[u8]) -> bool
    ensures { result ≡ is_end line.now }
{
    operation(line) == END
}

impl Machine for EndMachine {
    ghost State = { Bool };

    ghost state = { end_state };

    ghost rule = { end_rule };

    ghost falls = { end_falls };

    fn busy(&self) -> bool {
        self.seen
    }

    fn take(&mut self, line: &Line) -> Deed {
        self.seen = is_end(line.text());
        Deed::Hands(*line)
    }

    fn work(&mut self) -> Deed {
        self.seen = false;
        Deed::Stops(Ok(()))
    }

    fn close(&self, ending: Ending) -> Ending {
        passed_up(ending)
    }
}

// An END layer, fresh, over a source. (Why its clauses say `keeping` stands at `over`.)
pub fn end_layer<S: Source>(below: S) -> Layered<S, EndMachine>
    ensures meaning { laid_meaning end_rule S.meaning (keeping end_state S.kept result) ≡ end_remains (S.meaning (S.kept below)) }
    ensures untold { Untold (S.meaning (S.kept below)) → Untold (laid_meaning end_rule S.meaning (keeping end_state S.kept result)) }
{
    over(below, EndMachine { seen: false })
}
