// One word of an expression, at its place in a table of levels.
ghost use Rattle.std.specs.Prelude.{◌≡◌, length, Some, None};
ghost use Rattle.expressions.specs.Trees.{additive};
ghost use Rattle.expressions.specs.Walks.{Ended, Stands, Stepped, factored, fresh_level, is_fresh, join_with, operated_level, sign_with, waits_in, walker_of};

use crate::flaws::Flaw;
use crate::level::{Left, Level, Op, Token, Walk};
use crate::number::Number;

impl Op {
    // Is the operator + or -?
    fn is_additive(self) -> bool
        ensures { result ≡ additive self }
    {
        matches!(self, Op::Plus | Op::Minus)
    }
}

// What waits, joined with its right side. Clauses name the operations as a walker, in which the grammar is written: a word for it
// would rename it once more.
fn joined<V: Number>(waiting: Option<Left<V>>, right: V) -> V
    ensures { result ≡ join_with (walker_of V.Number.operations) waiting right }
{
    waiting.map_or(right, |left| left.value.applied(left.op, right))
}

// A value with the sign that waits for it.
fn with_sign<V: Number>(sign: Option<Op>, value: V) -> V
    ensures { result ≡ sign_with (walker_of V.Number.operations) sign value }
{
    sign.map_or(value, |op| value.signed(op))
}

// A level on which nothing is read. A function: a derived `Default` would ask `V: Default`.
pub fn fresh_level<V: Number>() -> Level<V>
    ensures { result ≡ fresh_level }
{
    Level {
        sums: None,
        products: None,
        sign: None,
    }
}

impl<V: Number> Level<V> {
    // Is nothing read on the level?
    fn is_fresh(self) -> bool
        ensures { result ≡ is_fresh self }
    {
        self.sums.is_none() && self.products.is_none() && self.sign.is_none()
    }

    // The level after an operator that follows a product.
    fn operated(self, product: V, op: Op) -> Level<V>
        ensures { result ≡ operated_level (walker_of V.Number.operations) self product op }
    {
        let (sums, products) = if op.is_additive() {
            let value = joined(self.sums, product);
            (Some(Left { value, op }), None)
        } else {
            (self.sums, Some(Left { value: product, op }))
        };
        Level {
            sums,
            products,
            sign: None,
        }
    }
}

// The steps of a walk match on the word: what one does stands in its case.
impl<V: Number> Walk<'_, V> {
    // A factor on the level: its sign first, then the product that waits.
    fn factor(&mut self, factor: V)
        ensures { Stands self.new (factored (walker_of V.Number.operations) self.old.level factor (waits_in self.old)) (length self.old.levels.now) }
    {
        let value = joined(self.level.products, with_sign(self.level.sign, factor));
        self.level = Level {
            products: None,
            sign: None,
            ..self.level
        };
        self.after = Some(value);
    }

    // One word where a factor is wanted.
    fn wanting(&mut self, token: Token<V>) -> Result<(), Flaw>
        requires { self.old.after ≡ None }
        ensures { Stepped (walker_of V.Number.operations) self.old self.new token result }
    {
        match token {
            Token::Factor(value) => self.factor(value),
            Token::Operator(op) => {
                if !self.level.is_fresh() || !op.is_additive() {
                    return Err(Flaw::NoForm);
                }
                self.level.sign = Some(op);
            }
            Token::Open => {
                // The proof does not see which row is written through `get_mut`.
                if self.depth >= self.levels.len() {
                    return Err(Flaw::NoForm);
                }
                self.levels[self.depth] = self.level;
                self.level = fresh_level();
                self.depth += 1;
            }
            Token::Close => return Err(Flaw::NoForm),
        }
        Ok(())
    }

    // One word after a product.
    fn following(&mut self, product: V, token: Token<V>) -> Result<(), Flaw>
        requires { self.old.after ≡ Some product }
        ensures { Stepped (walker_of V.Number.operations) self.old self.new token result }
    {
        match token {
            Token::Operator(op) => {
                self.level = self.level.operated(product, op);
                self.after = None;
            }
            Token::Close => {
                self.depth = self.depth.checked_sub(1).ok_or(Flaw::NoForm)?;
                let value = joined(self.level.sums, product);
                self.level = self.levels[self.depth];
                self.factor(value);
            }
            Token::Factor(_) | Token::Open => return Err(Flaw::NoForm),
        }
        Ok(())
    }

    // One word of an expression.
    pub(crate) fn take(&mut self, token: Token<V>) -> Result<(), Flaw>
        ensures { Stepped (walker_of V.Number.operations) self.old self.new token result }
    {
        // A match: the second step needs the product that its case holds.
        match self.after {
            None => self.wanting(token),
            Some(product) => self.following(product, token),
        }
    }

    // The value of the walk, if it may end here: a match, which a guard on the product needs.
    pub(crate) fn ended(&self) -> Result<V, Flaw>
        ensures { Ended V.Number.operations self.now result }
    {
        match self.after {
            Some(product) if self.depth == 0 => Ok(joined(self.level.sums, product)),
            _ => Err(Flaw::NoForm),
        }
    }
}
