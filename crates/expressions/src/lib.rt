// What the parts of a statement mean: symbols and their values, text as a number, number as text, substitution.
#![tactic(auto)]

pub mod arithmetic;
pub mod cases;
pub mod classes;
pub mod comparing;
pub mod flaws;
pub mod level;
pub mod number;
pub mod numbers;
mod piece;
mod pieces;
pub mod substitution;
pub mod symbol;
pub mod symbols;
pub mod text;
pub mod texts;
mod tokens;
pub mod values;
mod walks;

pub use arithmetic::work_out;
pub use classes::{Class, class_of};
pub use comparing::compare;
pub use flaws::Flaw;
pub use level::{Left, Level, Op};
pub use number::Number;
pub use numbers::{number_of, written_number};
pub use substitution::substitute;
pub use symbol::{CallNumber, Symbol};
pub use symbols::Symbols;
pub use text::Text;
pub use values::{Value, evaluate};
pub use walks::fresh_level;
