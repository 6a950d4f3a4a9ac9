// What every source is: known by what remains in it, read by NEXT.
ghost use Rattle.std.specs.Prelude.{◌≡◌, ℕ};
ghost use Rattle.sources.specs.Meaning.{Paced, Remains, iterate};
ghost use Rattle.sources.specs.Replies.{Lawful, Replies, spent_by};

use crate::answers::Reply;

// The most steps that one request may grant.
pub const MOST_STEPS: u32 = 1_000_000;

pub trait Source {
    // what the source and all below it keep, in every field that an answer can depend on
    ghost Kept: { Type 0 };

    ghost kept: { Self → Kept };

    // the priced lines and the priced ending that are still to come
    ghost meaning: { Kept → Remains };

    // what the rules reach by one step
    ghost tick: { Kept → Kept };

    // a step of what is kept is a step of what remains
    ghost paced: { Paced meaning tick };

    fn next(&mut self, buffer: &mut [u8], grant: u32) -> Reply
        ensures replies { Replies (meaning (kept self.old)) (meaning (kept self.new)) buffer.old buffer.new grant result }
        ensures lawful { Lawful result buffer.new }
        ensures reached { kept self.new ≡ iterate tick (spent_by result) (kept self.old) };
}
