// What is wrong with a library text, and how far one is read.
#[derive(Clone, Copy, Debug, PartialEq, Eq)]
pub enum LibraryCause {
    // a line is not ended, has over 71 bytes, or one that is no character
    BadLine,
    // a definition does not begin with a MACRO line without name and operand
    NoMacro,
    BadPrototype,
    // a macro name stands twice
    SameName,
    // MACRO, END or BEND before MEND
    Nested,
    // no MEND by statement 255
    NoMend,
    // more than 255 definitions
    TooMany,
}

#[derive(Clone, Copy, Debug, PartialEq, Eq)]
pub struct LibraryFault {
    pub cause: LibraryCause,
    pub line: u32,
}

#[derive(Clone, Copy, Debug, Default, PartialEq, Eq)]
pub enum Phase {
    // between definitions
    #[default]
    Between,
    // after MACRO, which stands in this line
    Opened {
        macro_line: u32,
    },
    // inside a definition: how many of its statements are read, and the line of its MACRO if it is past the last that a
    // library may have
    Inside {
        statements: u16,
        past_last: Option<u32>,
    },
}
