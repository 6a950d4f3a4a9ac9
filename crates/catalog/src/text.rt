// The library over a text: the text itself, and a table of where its definitions begin.
ghost use Rattle.std.specs.Prelude.{◌≡◌, ℕ, ◌<◌, true, [], length, slice_index_or};
ghost use Rattle.arrayvec.specs.ArrayVec.{array_vec_len};
ghost use Rattle.libraries.specs.Definitions.{text_definitions};
ghost use Rattle.catalog.specs.Entries.{nowhere, stands};

use crate::entry::Entry;
use arrayvec::ArrayVec;
use libraries::DEFINITIONS;

#[derive(Drop)]
pub struct TextLibrary<'a> {
    pub(crate) text: &'a [u8],
    pub(crate) entries: ArrayVec<Entry<'a>, DEFINITIONS>,
    ghost counted: { array_vec_len entries ≡ length (text_definitions text.now) },
    ghost placed: { (i : ℕ) → i < array_vec_len entries → stands text.now (slice_index_or (text_definitions text.now) i []) (slice_index_or entries.items i nowhere) ≡ true },
}
