// The lines of a text.
ghost use Rattle.std.specs.Prelude.{◌≡◌, ◌≢◌, [], MatchOption};
ghost use Rattle.std.specs.Iterator.{YieldsFirstRef, item_count};
ghost use Rattle.lines.specs.Texts.{first_line, lines_of, past_line};

use crate::{LINE_END, after_byte, first_at};
use std::marker::Model;

// The lines of a text, one after the other: a clause sees what is left of the text.
#[derive(Drop)]
pub struct Lines<'a> {
    rest: &'a [u8],
}

impl<'a> Model for Lines<'a> {
    ghost use Rattle.std.specs.Prelude.{List, ℕ};

    ghost Value = { List ℕ };

    ghost view = { λ lines. lines.rest.now };
}

impl<'a> Lines<'a> {
    // The lines of a text, from its first on.
    pub fn of(text: &'a [u8]) -> Lines<'a>
        ensures { result ≡ text.now }
    {
        Lines { rest: text }
    }
}

impl<'a> Iterator for Lines<'a> {
    type Item = &'a [u8];

    ghost next_gives = { YieldsFirstRef lines_of };

    ghost remaining = { item_count lines_of };

    fn next(&mut self) -> Option<&'a [u8]> {
        let (line, rest) = split_line(self.rest)?;
        self.rest = rest;
        Some(line)
    }
}

// The first line of a text and what follows it; none where there is no line.
pub fn split_line(text: &[u8]) -> Option<(&[u8], &[u8])>
    ensures { MatchOption result (text.now ≡ []) (λ cut. (text.now ≢ []) × (cut.0.now ≡ first_line text.now) × (cut.1.now ≡ past_line text.now)) }
{
    if text.is_empty() {
        return None;
    }
    let end = first_at(text, LINE_END);
    Some((&text[..end], after_byte(text, end)))
}
