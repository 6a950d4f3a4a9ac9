// A line by value: 0 to 80 characters.
ghost use Rattle.std.specs.Prelude.{◌≡◌, ◌≤◌, true, length, take};
ghost use Rattle.lines.specs.Characters.{characters};

use lines::Short;

// The longest line, and the bytes of a buffer that a line takes.
pub const WIDTH: usize = 80;

#[derive(Clone, Copy)]
pub struct Line {
    pub(crate) bytes: Short<WIDTH>,
    ghost fits: { length (take bytes.len bytes.bytes) ≤ 80 },
    ghost clean: { characters (take bytes.len bytes.bytes) ≡ true },
}
