// Worked cases, each proved of the definitions that the contracts cite.
ghost use Rattle.expressions.specs.Cases.{WorkedCases};

pub fn worked_cases_hold() -> bool
    ensures { WorkedCases }
{
    true
}
