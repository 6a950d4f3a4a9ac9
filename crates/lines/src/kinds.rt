// The kinds of statements, by their operation, which alone tells them. A `Statement` has these cases too, and holds the fields.

#[derive(Clone, Copy, Debug, PartialEq, Eq)]
pub enum Kind {
    // LCLA to GBLC
    Declaration,
    // SETA, SETB, SETC
    Assignment,
    // AIF
    Branch,
    // AGO
    Jump,
    // ANOP
    Label,
    // MEXIT
    Exit,
    // MEND
    Mend,
    // MNOTE
    Note,
    // MACRO
    Opening,
    // END, BEND
    Closing,
    // any other
    Model,
}
