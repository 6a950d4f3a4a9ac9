// A text by value, in fixed memory.
ghost use Rattle.std.specs.Prelude.{◌≡◌, ◌<◌, ◌≤◌, length, take, MatchOption};
ghost use Rattle.lines.specs.Names.{padded_to};

use crate::{BLANK, overwrite};

// At most N bytes: an array with a length beside it, in fixed memory, and blanks behind the bytes. The fields are open, so that an
// array which is filled so already becomes a text by a move: who writes them proves that it is. It has no `impl Model`: a `Copy`
// struct that holds one with a model is not copied where it is passed by value and used again.
#[derive(Clone, Copy)]
pub struct Short<const N: usize> {
    pub bytes: [u8; N],
    pub len: usize,
    ghost fits: { len ≤ N },
    ghost sized: { length bytes ≡ N },
    ghost blank: { bytes ≡ padded_to N (take len bytes) },
}

impl<const N: usize> Short<N> {
    // These bytes, if they are at most N. An Option and no TryFrom: there is one way to fail, and an error for it would say no more.
    pub fn new(text: &[u8]) -> Option<Self>
        ensures { MatchOption result (N < length text.now) (λ s. take s.len s.bytes ≡ text.now) }
    {
        if text.len() > N {
            return None;
        }
        let mut bytes = [BLANK; N];
        overwrite(&mut bytes, text);
        Some(Short {
            bytes,
            len: text.len(),
        })
    }

    // The bytes.
    pub fn as_slice(&self) -> &[u8]
        ensures value { result.now ≡ take self.now.len self.now.bytes }
        ensures bound { length result.now ≤ N }
    {
        &self.bytes[..self.len]
    }
}
