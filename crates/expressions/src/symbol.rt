// What a symbol is: its kind, which is the case, and its value.
use crate::text::Text;

// The number of a call, from 1; its text is four digits.
#[derive(Clone, Copy, Debug, PartialEq, Eq)]
pub struct CallNumber(pub u16);

#[derive(Clone, Copy)]
pub enum Symbol {
    Parameter(Text),
    Arithmetic(i32),
    Bit(bool),
    Characters(Text),
    Call(CallNumber),
}
