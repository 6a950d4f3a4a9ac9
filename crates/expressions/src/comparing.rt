// Which of two texts is lower.
ghost use Rattle.std.specs.Prelude.{◌≡◌};
ghost use Rattle.expressions.specs.Compared.{compared};

use std::cmp::Ordering;

// Of two texts the shorter is lower; of equal lengths the first bytes that differ decide.
pub fn compare(left: &[u8], right: &[u8]) -> Ordering
    ensures { result ≡ compared left.now right.now }
{
    left.len().cmp(&right.len()).then_with(|| left.cmp(&right))
}
