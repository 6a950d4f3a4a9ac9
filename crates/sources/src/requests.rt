// A request as a layer makes it, and an answer as a caller gets it.
ghost use Rattle.std.specs.Prelude.{◌≡◌, length, take, if◌then◌else◌, Ok, Err, nat_lt};
ghost use Rattle.lines.specs.Results.{Passes};
ghost use Rattle.sources.specs.Hearings.{Asked, delivers, tells, text_of};
ghost use Rattle.sources.specs.Lines.{filled};
ghost use Rattle.sources.specs.Meaning.{iterate};
ghost use Rattle.sources.specs.Replies.{LineIn, refusal_of, spent_by};

use crate::answers::{Answer, Refusal, Reply, Told};
use crate::line::{Line, WIDTH};
use crate::source::{MOST_STEPS, Source};
use lines::{BLANK, Short};

// Ok where a call with this buffer and this grant is a good one, and else its refusal. `deliver` and `put` ask the buffer once more: they
// are calls of their own.
pub fn admit(buffer: &[u8], grant: u32) -> Result<(), Refusal>
    ensures { Passes (refusal_of (length buffer.now) grant) result }
{
    if buffer.len() < WIDTH {
        return Err(Refusal::ShortBuffer);
    }
    if grant > MOST_STEPS {
        return Err(Refusal::LargeGrant);
    }
    Ok(())
}

// Tells a caller what was heard: a line goes into the buffer. A buffer under 80 bytes is refused: this is a call of its own, which owes
// that whether `admit` was asked or not.
pub fn deliver(heard: &Answer<Told<Line>>, buffer: &mut [u8]) -> Reply
    ensures answer { result ≡ (if nat_lt (length buffer.old) 80 then Err Refusal.ShortBuffer else Ok (tells heard.now)) }
    ensures buffer { buffer.new ≡ (if nat_lt (length buffer.old) 80 then buffer.old else delivers heard.now buffer.old) }
{
    if buffer.len() < WIDTH {
        return Err(Refusal::ShortBuffer);
    }
    if let Told::Line(line) = &heard.told {
        line.put(buffer)?;
    }
    Ok(Answer {
        spent: heard.spent,
        told: heard.told.map(|line| line.text().len()),
    })
}

// One request to the source below, with a buffer of the layer's own.
pub fn ask<S: Source>(source: &mut S, grant: u32) -> Result<Answer<Told<Line>>, Refusal>
    ensures heard { Asked (S.meaning (S.kept source.old)) grant result }
    ensures reached { S.kept source.new ≡ iterate S.tick (spent_by result) (S.kept source.old) }
{
    let mut buffer = [BLANK; WIDTH];
    let answer = source.next(&mut buffer, grant)?;
    Ok(Answer {
        spent: answer.spent,
        told: answer.told.map(|len| received(buffer, len)),
    })
}

// The line that a source has put into a buffer, which it filled with blanks.
fn received(bytes: [u8; WIDTH], len: usize) -> Line
    requires line { LineIn len bytes }
    requires whole { bytes ≡ filled (take len bytes) }
    ensures { text_of result ≡ take len bytes }
{
    Line {
        bytes: Short { bytes, len },
    }
}
