// A line made from bytes, and put into a buffer.
ghost use Rattle.std.specs.Prelude.{◌≡◌, length, if◌then◌else◌, Some, None, Ok, Err, MatchResult, nat_lt};
ghost use Rattle.sources.specs.Hearings.{text_of};
ghost use Rattle.sources.specs.Lines.{written};
ghost use Rattle.sources.specs.Texts.{flaw};

use crate::answers::Refusal;
use crate::faults::Cause;
use crate::line::{Line, WIDTH};
use lines::{Short, all_characters};

// A line of these bytes, or what is wrong with them.
impl TryFrom<&[u8]> for Line {
    type Error = Cause;

    ghost try_from_gives = { λ text result. MatchResult result (λ l. (flaw text.now ≡ None) × (text_of l ≡ text.now)) (λ e. flaw text.now ≡ Some e) };

    // The tests come first: a value of 80 bytes that is made before them is copied once more on its way out.
    fn try_from(text: &[u8]) -> Result<Line, Cause> {
        if text.len() > WIDTH {
            return Err(Cause::LineTooLong);
        }
        if !all_characters(text) {
            return Err(Cause::BadCharacter);
        }
        Ok(Line {
            bytes: Short::new(text).unwrap(),
        })
    }
}

impl Line {
    // The characters of the line.
    pub fn text(&self) -> &[u8]
        ensures { result.now ≡ text_of self.now }
    {
        self.bytes.as_slice()
    }

    // Fills the first 80 bytes of a buffer with the line; a shorter buffer is refused and stays as it is, which
    // this call owes whoever asks it.
    pub fn put(&self, buffer: &mut [u8]) -> Result<usize, Refusal>
        ensures answer { result ≡ (if nat_lt (length buffer.old) 80 then Err Refusal.ShortBuffer else Ok (length (text_of self.now))) }
        ensures buffer { buffer.new ≡ (if nat_lt (length buffer.old) 80 then buffer.old else written (text_of self.now) buffer.old) }
    {
        if buffer.len() < WIDTH {
            return Err(Refusal::ShortBuffer);
        }
        let text = self.text();
        buffer[..WIDTH].copy_from_slice(&self.bytes.bytes);
        Ok(text.len())
    }
}
