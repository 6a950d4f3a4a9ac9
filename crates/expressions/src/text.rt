// A text by value: at most 48 bytes.
ghost use Rattle.std.specs.Prelude.{◌≤◌, length, take};

use lines::Short;

// The longest text that a symbol has.
pub const LONGEST_TEXT: usize = 48;

#[derive(Clone, Copy)]
pub struct Text {
    pub(crate) bytes: Short<LONGEST_TEXT>,
    ghost fits: { length (take bytes.len bytes.bytes) ≤ 48 },
}
