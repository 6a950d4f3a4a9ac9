// Operators, and the levels of an expression that is worked out from the left.
ghost use Rattle.std.specs.Prelude.{◌≤◌, length};

use crate::flaws::Flaw;

#[derive(Clone, Copy, Debug, PartialEq, Eq)]
pub enum Op {
    Plus,
    Minus,
    Times,
    Over,
}

// A left side and its operator, which wait for the right side.
#[derive(Clone, Copy)]
pub struct Left<V> {
    pub value: V,
    pub op: Op,
}

// A level of parentheses: the sum and the product that wait, and the sign that opened it.
#[derive(Clone, Copy)]
pub struct Level<V> {
    pub(crate) sums: Option<Left<V>>,
    pub(crate) products: Option<Left<V>>,
    pub(crate) sign: Option<Op>,
}

// What is read of an expression: a factor by its value, an operator, a parenthesis.
#[derive(Clone, Copy)]
pub(crate) enum Token<V> {
    Factor(V),
    Operator(Op),
    Open,
    Close,
}

// A walk over an expression: its level, the product so far where an operator may follow, how many levels wait, and the table that has them.
#[derive(Drop)]
pub(crate) struct Walk<'a, V> {
    pub(crate) level: Level<V>,
    pub(crate) after: Option<V>,
    // How many rows of the lent table are in use. Its rows are the caller's limit, which an ArrayVec would put into the type.
    pub(crate) depth: usize,
    pub(crate) levels: &'a mut [Level<V>],
    ghost room: { depth ≤ length levels.now },
}

// A word that was read: what it is, how many bytes it takes (the walk cuts what is left by it, and the laws of reading
// speak of widths), and the flaw if it is a symbol that is unknown.
#[derive(Clone, Copy)]
pub(crate) struct WordRead<V> {
    pub(crate) token: Token<V>,
    pub(crate) width: usize,
    pub(crate) known: Result<(), Flaw>,
}
