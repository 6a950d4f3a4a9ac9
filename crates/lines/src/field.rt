// Borrowed parts of a line.

// Some bytes of a line and their first column, from 1.
#[derive(Clone, Copy)]
pub struct Part<'a> {
    pub column: usize,
    pub bytes: &'a [u8],
}

// The fields of a line that is no comment; the remark is what follows the operand.
#[derive(Clone, Copy)]
pub struct Fields<'a> {
    pub name: Part<'a>,
    pub operation: Part<'a>,
    pub operand: Part<'a>,
    pub remark: Part<'a>,
}
