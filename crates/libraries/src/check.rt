// The check of a library text.
ghost use Rattle.std.specs.Prelude.{◌≡◌, [], Some, None, MatchResult};
ghost use Rattle.lines.specs.Results.{Passes};
ghost use Rattle.lines.specs.Texts.{lines_of};
ghost use Rattle.libraries.specs.Checks.{bad_from, body_kind, check_of, closing, ended, ends, finish, flaw, is_opening, library_number, line_fits, read_body, read_from, read_in, read_opening, read_prototype, reading};
ghost use Rattle.libraries.specs.Definitions.{LibraryText};
ghost use Rattle.libraries.specs.Readers.{ReadsOn};

use crate::flaws::{LibraryCause, LibraryFault, Phase};
use crate::prototypes::is_prototype;
use crate::reader::Reader;
use lines::{
    Kind, LINE_END, Lines, all_characters, fields_of, is_remark, kind_of, operation, padded_name,
};
use sources::faults::count_line;

// The longest line of a library.
pub const STATEMENT_BYTES: usize = 71;

// A definition has at most so many statements before its MEND.
const BODY_STATEMENTS: u16 = 254;

impl From<LibraryCause> for u16 {
    ghost from_gives = { λ cause number. number ≡ library_number cause };

    fn from(cause: LibraryCause) -> u16 {
        match cause {
            LibraryCause::BadLine => 10,
            LibraryCause::NoMacro => 11,
            LibraryCause::BadPrototype => 12,
            LibraryCause::SameName => 13,
            LibraryCause::Nested => 14,
            LibraryCause::NoMend => 15,
            LibraryCause::TooMany => 16,
        }
    }
}

// At most 71 bytes, all characters?
fn line_fits(line: &[u8]) -> bool
    ensures { result ≡ line_fits line.now }
{
    line.len() <= STATEMENT_BYTES && all_characters(line)
}

// A MACRO line, without name or operand?
fn is_opening(line: &[u8]) -> bool
    ensures { result ≡ is_opening line.now }
{
    let Some(fields) = fields_of(line) else {
        return false;
    };
    matches!(kind_of(fields.operation.bytes), Kind::Opening)
        && fields.name.bytes.is_empty()
        && fields.operand.bytes.is_empty()
}

// The kind of a statement of a body.
fn body_kind(line: &[u8]) -> Kind
    ensures { result ≡ body_kind line.now }
{
    if is_remark(line) {
        return Kind::Model;
    }
    kind_of(operation(line))
}

// Is the statement a MEND?
pub fn ends_definition(line: &[u8]) -> bool
    ensures { result ≡ ends (body_kind line.now) }
{
    matches!(body_kind(line), Kind::Mend)
}

fn fault(cause: LibraryCause, line: u32) -> LibraryFault
    ensures { result ≡ flaw cause line }
{
    LibraryFault { cause, line }
}

// Each step takes the number and the line apart: one comes from the count, the other from the text.
impl Reader {
    // A line where a definition could begin.
    fn read_opening(&mut self, number: u32, line: &[u8]) -> Result<(), LibraryFault>
        ensures { ReadsOn (read_opening self.old number line.now) result self.new }
    {
        if !is_opening(line) {
            return Err(fault(LibraryCause::NoMacro, number));
        }
        self.phase = Phase::Opened { macro_line: number };
        Ok(())
    }

    // The line after MACRO.
    fn read_prototype(
        &mut self,
        macro_line: u32,
        number: u32,
        line: &[u8],
    ) -> Result<(), LibraryFault>
        ensures { ReadsOn (read_prototype self.old macro_line number line.now) result self.new }
    {
        if !is_prototype(line) {
            return Err(fault(LibraryCause::BadPrototype, number));
        }
        let name = padded_name(operation(line));
        if self.names.has(name) {
            return Err(fault(LibraryCause::SameName, number));
        }
        let past_last = self.names.try_push(name).is_err().then_some(macro_line);
        self.phase = Phase::Inside {
            statements: 1,
            past_last,
        };
        Ok(())
    }

    // A line of a body.
    fn read_body(
        &mut self,
        statements: u16,
        past_last: Option<u32>,
        number: u32,
        line: &[u8],
    ) -> Result<(), LibraryFault>
        ensures { ReadsOn (read_body self.old statements past_last number line.now) result self.new }
    {
        // A match on the kind: what a line does stands in its case.
        match body_kind(line) {
            Kind::Opening | Kind::Closing => Err(fault(LibraryCause::Nested, number)),
            Kind::Mend => self.close(past_last),
            _ if statements >= BODY_STATEMENTS => Err(fault(LibraryCause::NoMend, number)),
            _ => {
                self.phase = Phase::Inside {
                    statements: statements + 1,
                    past_last,
                };
                Ok(())
            }
        }
    }

    // MEND of the definition being read.
    fn close(&mut self, past_last: Option<u32>) -> Result<(), LibraryFault>
        ensures { ReadsOn (closing self.old past_last) result self.new }
    {
        if let Some(macro_line) = past_last {
            return Err(fault(LibraryCause::TooMany, macro_line));
        }
        self.phase = Phase::Between;
        Ok(())
    }

    // One line more, with its number.
    fn read(&mut self, number: u32, line: &[u8]) -> Result<(), LibraryFault>
        ensures { ReadsOn (read_in self.old.phase self.old number line.now) result self.new }
    {
        // A match: each step takes what its case holds, which a closure for it would have to be given.
        match self.phase {
            Phase::Between => self.read_opening(number, line),
            Phase::Opened { macro_line } => self.read_prototype(macro_line, number, line),
            Phase::Inside {
                statements,
                past_last,
            } => self.read_body(statements, past_last, number, line),
        }
    }

    // The text ends after this line: a match, as what is wrong depends on the phase alone.
    fn finish(&self, last: u32) -> Result<(), LibraryFault>
        ensures { Passes (finish self.now.phase last) result }
    {
        match self.phase {
            Phase::Between => Ok(()),
            Phase::Opened { .. } => Err(fault(LibraryCause::BadPrototype, last)),
            Phase::Inside { .. } => Err(fault(LibraryCause::NoMend, last)),
        }
    }
}

// Is the last line ended, if there is one?
fn is_ended(text: &[u8]) -> bool
    ensures { result ≡ ended text.now }
{
    text.last().is_none_or(|last| *last == LINE_END)
}

// Does each line fit, and is the last one ended?
fn check_lines(text: &[u8]) -> Result<(), LibraryFault>
    ensures { MatchResult result (λ _. bad_from 0 (ended text.now) (lines_of text.now) ≡ None) (λ f. (f.cause ≡ LibraryCause.BadLine) × (bad_from 0 (ended text.now) (lines_of text.now) ≡ Some f.line)) }
{
    // Counted beside the lines, because the count stops at the highest line number. So below.
    let mut taken = 0;
    for line in Lines::of(text) {
        taken = count_line(taken);
        if !line_fits(line) {
            return Err(fault(LibraryCause::BadLine, taken));
        }
    }
    if !is_ended(text) {
        return Err(fault(LibraryCause::BadLine, taken));
    }
    Ok(())
}

// Are the definitions of a text whose lines fit lawful?
fn check_definitions(text: &[u8]) -> Result<(), LibraryFault>
    ensures { Passes (read_from 0 (lines_of text.now) (reading Phase.Between [])) result }
{
    let mut reader = Reader::default();
    let mut taken = 0;
    for line in Lines::of(text) {
        taken = count_line(taken);
        reader.read(taken, line)?;
    }
    reader.finish(taken)
}

// Is the text a lawful library? If not, what is wrong first, and in which line.
pub fn check_text(text: &[u8]) -> Result<(), LibraryFault>
    ensures first { Passes (check_of text.now) result }
    ensures lawful { MatchResult result (λ _. LibraryText text.now) (λ _. (LibraryText text.now → ⊥)) }
{
    check_lines(text)?;
    check_definitions(text)
}
