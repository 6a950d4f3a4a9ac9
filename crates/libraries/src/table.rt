// A table of names in fixed memory.
ghost use Rattle.std.specs.Prelude.{◌≡◌, ◌<◌, ◌≤◌, [], ◌∷◌, ◌++◌, length, MatchResult};
ghost use Rattle.arrayvec.specs.CapacityError.{error_element};
ghost use Rattle.libraries.specs.Tables.{among};

use arrayvec::CapacityError;
use lines::{BLANK, NAME_BYTES};
use std::marker::Model;

// At most N names; a clause sees them as a list. The kit's ArrayVec cannot be copied, and a reader and the parameters seen can: so an
// array with a count beside it, whose rows behind the names are blank.
#[derive(Clone, Copy)]
pub struct Names<const N: usize> {
    rows: [[u8; NAME_BYTES]; N],
    count: usize,
}

impl<const N: usize> Model for Names<N> {
    ghost use Rattle.std.specs.Prelude.{List, ℕ, length, take};
    ghost use Rattle.libraries.specs.Tables.{Table, given_back, rows_with, taken_count};

    ghost Value = { List (List ℕ) };

    ghost view = { λ t. take t.count t.rows };

    ghost invariant = { λ t. Table N t.count t.rows };

    ghost inverse = { λ names. record { rows = rows_with N names; count = length names } };

    ghost inverse_ok = { λ t h i. record { rows = given_back N t.count t.rows h i; count = taken_count N t.count t.rows h i } };
}

impl<const N: usize> Names<N> {
    // No name yet.
    pub fn new() -> Self
        ensures { result ≡ [] }
    {
        Names {
            rows: [[BLANK; NAME_BYTES]; N],
            count: 0,
        }
    }

    // The names.
    pub fn as_slice(&self) -> &[[u8; NAME_BYTES]]
        ensures value { result.now ≡ self.now }
        ensures bound { length result.now ≤ N }
    {
        &self.rows[..self.count]
    }

    // Is the name in the table? A loop over the rows and no contains, which stays a call of its own and takes longer on a few rows.
    pub fn has(&self, name: [u8; NAME_BYTES]) -> bool
        ensures { result ≡ among name self.now }
    {
        self.as_slice().iter().any(|row| *row == name)
    }

    // Adds a name, or hands it back where the table is full.
    pub fn try_push(
        &mut self,
        name: [u8; NAME_BYTES],
    ) -> Result<(), CapacityError<[u8; NAME_BYTES]>>
        ensures { MatchResult result (λ _. (length self.old < N) × (self.new ≡ self.old ++ name ∷ [])) (λ e. (N ≤ length self.old) × (self.new ≡ self.old) × (error_element e ≡ name)) }
    {
        let at = self.count;
        if at >= N {
            return Err(CapacityError::new(name));
        }
        self.rows[at] = name;
        self.count = at + 1;
        Ok(())
    }
}

impl<const N: usize> Default for Names<N> {
    ghost is_default = { λ names. names ≡ [] };

    fn default() -> Self {
        Self::new()
    }
}
