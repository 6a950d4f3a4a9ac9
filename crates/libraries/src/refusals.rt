// Why a call of a library is refused.
ghost use Rattle.std.specs.Prelude.{◌≡◌};
ghost use Rattle.libraries.specs.Lookups.{library_refusal_number};

// A bad call. Its number is `library_refusal_number` of specs/Lookups.
#[derive(Clone, Copy, Debug, PartialEq, Eq)]
pub enum LibraryRefusal {
    // the buffer has no room for a line
    ShortBuffer,
    // there is no definition or statement of this number
    Missing,
    // the buffer has no room for the whole library
    NoRoom,
}

impl From<LibraryRefusal> for u16 {
    ghost from_gives = { λ refusal number. number ≡ library_refusal_number refusal };

    fn from(refusal: LibraryRefusal) -> u16 {
        match refusal {
            LibraryRefusal::ShortBuffer => 1,
            LibraryRefusal::Missing => 6,
            LibraryRefusal::NoRoom => 17,
        }
    }
}
