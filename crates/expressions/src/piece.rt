// What a piece of a field gives.
use lines::NAME_BYTES;

#[derive(Clone, Copy)]
pub(crate) enum Gives {
    Byte(u8),
    Named([u8; NAME_BYTES]),
}

// What is read of a piece: what it gives, and how many bytes it takes, by which the reader of the field cuts what is left: the
// laws of reading speak of widths.
#[derive(Clone, Copy)]
pub(crate) struct Reading {
    pub(crate) gives: Gives,
    pub(crate) width: usize,
}
