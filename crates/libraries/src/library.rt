// What every library is: a list of lawful definitions, numbered from 1.
ghost use Rattle.std.specs.Prelude.{◌≡◌, List, length};
ghost use Rattle.libraries.specs.Definitions.{Definition, Lawful};
ghost use Rattle.libraries.specs.Lookups.{found_in, hands, length_in, statement_in, tells};

use crate::refusals::LibraryRefusal;
use lines::NAME_BYTES;
use sources::{DefinitionNumber, StatementNumber};

pub trait Library {
    ghost definitions: { Self → List Definition };

    // they are at most 255, each lawful
    ghost lawful: { (library : Self) → Lawful (definitions library) };

    // The number of the first definition of this name.
    fn find(&self, name: [u8; NAME_BYTES]) -> Option<DefinitionNumber>
        ensures { result ≡ found_in (definitions self.now) name };

    // How many definitions there are.
    fn count(&self) -> u16
        ensures { result ≡ length (definitions self.now) };

    // How many statements a definition has.
    fn length(&self, definition: DefinitionNumber) -> Result<u16, LibraryRefusal>
        ensures { result ≡ length_in (definitions self.now) definition.0 };

    // Puts a statement into the first 80 bytes of the buffer, filled with blanks, and tells its length.
    fn statement(
        &self,
        definition: DefinitionNumber,
        statement: StatementNumber,
        buffer: &mut [u8],
    ) -> Result<usize, LibraryRefusal>
        ensures answer { result ≡ tells (statement_in (definitions self.now) definition.0 statement.0) buffer.old }
        ensures buffer { buffer.new ≡ hands (statement_in (definitions self.now) definition.0 statement.0) buffer.old };
}
