// The engine: any machine over any source is a source.
ghost use Rattle.std.specs.Prelude.{◌≡◌, ◌≤◌, true, false, None};
ghost use Rattle.sources.specs.Meaning.{Untold};
ghost use Rattle.layers.specs.Engine.{Laid, Moves, Turned, keeping, laid, laid_meaning, laid_tick, layered};
ghost use Rattle.layers.specs.Running.{laid_paced};

use crate::machines::Machine;
use sources::{Answer, Ending, Line, Reply, Source, Told, admit, ask, deliver};

#[derive(Drop)]
pub struct Layered<S, M> {
    below: S,
    machine: M,
    // an ending of the layer's own, once it is told
    own: Option<Ending>,
}

// Three functions require the bound of a grant, as a type for it would be one more thing to carry: it is private here, and
// `admit` has asked it.
impl<S: Source, M: Machine> Layered<S, M> {
    // A step of work, if the grant has one.
    fn work(&mut self, grant: u32) -> Answer<Option<Told<Line>>>
        requires goes { self.old.own ≡ None }
        requires busy { M.rule.busy (M.state self.old.machine) ≡ true }
        ensures { Moves M.rule M.state S.meaning S.tick S.kept self.old self.new grant result }
    {
        if grant == 0 {
            return Answer {
                spent: 0,
                told: Some(Told::Held),
            };
        }
        let deed = self.machine.work();
        self.own = deed.ending();
        Answer {
            spent: 1,
            told: deed.told(),
        }
    }

    // A request to the source below, and what comes of what it told.
    fn listen(&mut self, grant: u32) -> Answer<Option<Told<Line>>>
        requires small { grant ≤ 1000000 }
        requires goes { self.old.own ≡ None }
        requires idle { M.rule.busy (M.state self.old.machine) ≡ false }
        ensures { Moves M.rule M.state S.meaning S.tick S.kept self.old self.new grant result }
    {
        let Answer { spent, told } = ask(&mut self.below, grant).unwrap();
        let told = match told {
            Told::Line(line) => {
                let deed = self.machine.take(&line);
                self.own = deed.ending();
                deed.told()
            }
            Told::Held => Some(Told::Held),
            Told::Ended(ending) => Some(Told::Ended(self.machine.close(ending))),
        };
        Answer { spent, told }
    }

    // One deed or one request below, within the grant.
    fn advance(&mut self, grant: u32) -> Answer<Option<Told<Line>>>
        requires { grant ≤ 1000000 }
        ensures { Moves M.rule M.state S.meaning S.tick S.kept self.old self.new grant result }
    {
        if let Some(ending) = self.own {
            return Answer {
                spent: 0,
                told: Some(Told::Ended(ending)),
            };
        }
        if self.machine.busy() {
            self.work(grant)
        } else {
            self.listen(grant)
        }
    }

    // A whole request: advances until something is told. (Why its clause says `keeping` stands at `over`.)
    fn turn(&mut self, grant: u32) -> Answer<Told<Line>>
        requires { grant ≤ 1000000 }
        ensures { Turned M.rule S.meaning S.tick (keeping M.state S.kept self.old) (keeping M.state S.kept self.new) grant result }
    {
        let mut spent = 0;
        loop {
            let Answer { spent: more, told } = self.advance(grant - spent);
            spent += more;
            if let Some(told) = told {
                return Answer { spent, told };
            }
        }
    }
}

// A fresh layer over a source. Clauses see a layer by `keeping`; an `impl Model` cannot say it, because the value would be made of the
// members of both bounds.
pub fn over<S: Source, M: Machine>(below: S, machine: M) -> Layered<S, M>
    ensures kept { keeping M.state S.kept result ≡ laid None (M.state machine) (S.kept below) }
    ensures meaning { laid_meaning M.rule S.meaning (keeping M.state S.kept result) ≡ layered M.rule (M.state machine) (S.meaning (S.kept below)) }
    ensures untold { Untold (S.meaning (S.kept below)) → Untold (laid_meaning M.rule S.meaning (keeping M.state S.kept result)) }
{
    Layered {
        below,
        machine,
        own: None,
    }
}

impl<S: Source, M: Machine> Source for Layered<S, M> {
    ghost Kept = { Laid M.State S.Kept };

    ghost kept = { keeping M.state S.kept };

    ghost meaning = { laid_meaning M.rule S.meaning };

    ghost tick = { laid_tick M.rule S.meaning S.tick };

    ghost paced = { laid_paced M.rule M.falls S.meaning S.tick S.paced };

    // The same two lines as the text source's (beside them stands why).
    fn next(&mut self, buffer: &mut [u8], grant: u32) -> Reply {
        admit(buffer, grant)?;
        deliver(&self.turn(grant), buffer)
    }
}
