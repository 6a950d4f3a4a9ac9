// What the library over a text answers.
ghost use Rattle.std.specs.Prelude.{◌≡◌, Some, None, MatchOption};
ghost use Rattle.libraries.specs.Checks.{check_of};
ghost use Rattle.libraries.specs.Definitions.{text_definitions};
ghost use Rattle.libraries.specs.Lookups.{statement_in};
ghost use Rattle.libraries.specs.Reads.{text_lawful};
ghost use Rattle.libraries.specs.declared.flaws.LibraryFault.{LibraryFault};
ghost use Rattle.catalog.specs.Entries.{Located};

use crate::entry::Entry;
use crate::index::indexed;
use crate::text::TextLibrary;
use arrayvec::ArrayVec;
use libraries::{Library, LibraryRefusal, check_text};
use lines::{Lines, NAME_BYTES, operation, padded_name, write_padded};
use sources::line::WIDTH;
use sources::{DefinitionNumber, StatementNumber};

// The library over a text that the check refuses.
fn nothing_in(text: &[u8]) -> TextLibrary<'_>
    requires { (f : LibraryFault) × (check_of text.now ≡ Some f) }
    ensures { result.text.now ≡ text.now }
{
    TextLibrary {
        text,
        entries: ArrayVec::new(),
    }
}

impl<'a> TextLibrary<'a> {
    // The definitions of a text; none where the check refuses it.
    pub fn new(text: &'a [u8]) -> TextLibrary<'a>
        ensures { text_definitions result.text.now ≡ text_definitions text.now }
    {
        match check_text(text) {
            Ok(()) => indexed(text),
            Err(_) => nothing_in(text),
        }
    }

    // Where the definition of this number stands, if there is one.
    fn entry(&self, number: u16) -> Option<Entry<'a>>
        ensures { Located self.now.text.now number result }
    {
        let at = usize::from(number).checked_sub(1)?;
        self.entries.as_slice().get(at).copied()
    }

    // A statement, if there is one of these numbers.
    fn line(&self, definition: u16, statement: u16) -> Option<&[u8]>
        ensures { MatchOption result (statement_in (text_definitions self.now.text.now) definition statement ≡ None) (λ t. statement_in (text_definitions self.now.text.now) definition statement ≡ Some t.now) }
    {
        let entry = self.entry(definition)?;
        let at = usize::from(statement);
        if !(1..=usize::from(entry.statements)).contains(&at) {
            return None;
        }
        Lines::of(entry.lines).nth(at)
    }
}

// The line of a definition that is its prototype, after MACRO.
const PROTOTYPE: usize = 1;

impl Library for TextLibrary<'_> {
    ghost definitions = { λ library. text_definitions library.text.now };

    ghost lawful = { λ library. text_lawful library.text.now };

    // Loops over the definitions and their first lines, left by a label with the number.
    // The name is in a definition's prototype, which is read only where the first byte fits.
    fn find(&self, name: [u8; NAME_BYTES]) -> Option<DefinitionNumber> {
        'definitions: {
            for (at, entry) in self.entries.as_slice().iter().enumerate() {
                if entry.initial != name[0] {
                    continue;
                }
                let lines = Lines::of(entry.lines);
                for (number, line) in lines.take(PROTOTYPE + 1).enumerate() {
                    if number == PROTOTYPE && padded_name(operation(line)) == name {
                        // Narrowed by `as`, which is proved: try_from would add a case that cannot happen. So below.
                        break 'definitions Some(DefinitionNumber(at as u16 + 1));
                    }
                }
            }
            None
        }
    }

    fn count(&self) -> u16 {
        self.entries.len() as u16
    }

    fn length(&self, definition: DefinitionNumber) -> Result<u16, LibraryRefusal> {
        let entry = self.entry(definition.0).ok_or(LibraryRefusal::Missing)?;
        Ok(entry.statements)
    }

    fn statement(
        &self,
        definition: DefinitionNumber,
        statement: StatementNumber,
        buffer: &mut [u8],
    ) -> Result<usize, LibraryRefusal> {
        if buffer.len() < WIDTH {
            return Err(LibraryRefusal::ShortBuffer);
        }
        let line = self
            .line(definition.0, statement.0)
            .ok_or(LibraryRefusal::Missing)?;
        write_padded(&mut buffer[..WIDTH], line);
        Ok(line.len())
    }
}
