// The statements of a definition, by kind, with their fields. The cases are those of Kind: a Kind with optional fields beside it would
// let a comment have fields.
use crate::field::Fields;

#[derive(Clone, Copy)]
pub enum Statement<'a> {
    // * in column 1
    Comment,
    // :* in columns 1 and 2
    Remark,
    // LCLA to GBLC
    Declaration(Fields<'a>),
    // SETA, SETB, SETC
    Assignment(Fields<'a>),
    // AIF
    Branch(Fields<'a>),
    // AGO
    Jump(Fields<'a>),
    // ANOP
    Label(Fields<'a>),
    // MEXIT
    Exit(Fields<'a>),
    // MEND
    Mend(Fields<'a>),
    // MNOTE
    Note(Fields<'a>),
    // MACRO
    Opening(Fields<'a>),
    // END, BEND
    Closing(Fields<'a>),
    // any other
    Model(Fields<'a>),
}
