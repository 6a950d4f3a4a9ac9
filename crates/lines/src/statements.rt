// The statement that a line of a definition is.
ghost use Rattle.std.specs.Prelude.{◌≡◌};
ghost use Rattle.lines.specs.Statements.{StatementOf, remark};

use crate::field::Fields;
use crate::fields::fields_of;
use crate::kinds::Kind;
use crate::operations::kind_of;
use crate::statement::Statement;
use crate::{COLON, STAR};

// Does it begin with :*?
pub fn is_remark(line: &[u8]) -> bool
    ensures { result ≡ remark line.now }
{
    matches!(line, [COLON, STAR, ..])
}

// The statement that a line of a definition is.
pub fn statement_of(line: &[u8]) -> Statement<'_>
    ensures { StatementOf line.now result }
{
    let Some(fields) = fields_of(line) else {
        return Statement::Comment;
    };
    if is_remark(line) {
        return Statement::Remark;
    }
    // A match: each case of one enum goes to the case of the other that holds the fields.
    match kind_of(fields.operation.bytes) {
        Kind::Declaration => Statement::Declaration(fields),
        Kind::Assignment => Statement::Assignment(fields),
        Kind::Branch => Statement::Branch(fields),
        Kind::Jump => Statement::Jump(fields),
        Kind::Label => Statement::Label(fields),
        Kind::Exit => Statement::Exit(fields),
        Kind::Mend => Statement::Mend(fields),
        Kind::Note => Statement::Note(fields),
        Kind::Opening => Statement::Opening(fields),
        Kind::Closing => Statement::Closing(fields),
        Kind::Model => Statement::Model(fields),
    }
}
