// The fields of a line.
ghost use Rattle.std.specs.Prelude.{◌≡◌, true, false, ◌∷◌, MatchOption};
ghost use Rattle.lines.specs.Division.{Divided, divided, rest_of};
ghost use Rattle.lines.specs.Fields.{At, FieldsOf, comment};
ghost use Rattle.lines.specs.Laws.{Joined};

use crate::field::{Fields, Part};
use crate::nesting::{COMMA, outside_end};
use crate::{BLANK, first_word, is_comment, past_blanks, past_word};

// The fields of a line, or none of a comment.
pub fn fields_of(line: &[u8]) -> Option<Fields<'_>>
    ensures value { MatchOption result (comment line.now ≡ true) (λ f. (comment line.now ≡ false) × FieldsOf line.now f) }
    ensures joined { Joined line.now }
{
    if is_comment(line) {
        return None;
    }
    let from_operation = past_word(line);
    let from_operand = past_word(from_operation);
    let end = outside_end(from_operand, BLANK);
    let remark = past_blanks(&from_operand[end..]);
    Some(Fields {
        name: part(line, line, first_word(line)),
        operation: part(line, from_operation, first_word(from_operation)),
        operand: part(line, from_operand, &from_operand[..end]),
        remark: part(line, remark, remark),
    })
}

// A part that begins what is left of the line.
fn part<'a>(line: &'a [u8], rest: &'a [u8], bytes: &'a [u8]) -> Part<'a>
    ensures { At line.now rest.now bytes.now result }
{
    Part {
        column: line.len().saturating_sub(rest.len()) + 1,
        bytes,
    }
}

// The first part of an operand, before its first comma outside, and what follows that comma, if there is one.
#[derive(Clone, Copy)]
pub struct Division<'a> {
    pub part: &'a [u8],
    pub rest: Option<&'a [u8]>,
}

// Divides an operand at its first comma outside apostrophes and parentheses.
pub fn divide(operand: &[u8]) -> Division<'_>
    ensures value { divided operand.now ≡ result.part.now ∷ rest_of result.rest }
    ensures joined { Divided operand.now }
{
    match operand.split_at(outside_end(operand, COMMA)) {
        (part, [_comma, rest @ ..]) => Division {
            part,
            rest: Some(rest),
        },
        (part, _) => Division { part, rest: None },
    }
}
