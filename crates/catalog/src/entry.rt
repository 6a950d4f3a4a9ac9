// Where a definition stands in a text.
#[derive(Clone, Copy, Debug, Default, PartialEq, Eq)]
pub struct Entry<'a> {
    // the text from its MACRO line on
    pub(crate) lines: &'a [u8],
    pub(crate) statements: u16,
    // the first byte of its name
    pub(crate) initial: u8,
}
