// What a chain answers: the first library's definitions, and then the second's where both fit.
ghost use Rattle.std.specs.Prelude.{◌≡◌, ◌+◌, length, None, nat_le};
ghost use Rattle.libraries.specs.Lookups.{found_in};
ghost use Rattle.catalog.specs.Chained.{Behind, chained, chained_lawful};

use crate::chain::Chain;
use libraries::{DEFINITIONS, Library, LibraryRefusal};
use lines::NAME_BYTES;
use sources::{DefinitionNumber, StatementNumber};

// The first library, and then the second. The clauses name both lists: a word for them would take both libraries and their members.
pub fn chain<A: Library, B: Library>(first: A, second: B) -> Chain<A, B>
    ensures first { A.Library.definitions result.first ≡ A.Library.definitions first }
    ensures second { B.Library.definitions result.second ≡ B.Library.definitions second }
    ensures definitions { chained (A.Library.definitions result.first) (B.Library.definitions result.second) ≡ chained (A.Library.definitions first) (B.Library.definitions second) }
{
    Chain { first, second }
}

impl<A: Library, B: Library> Chain<A, B> {
    // Do both make at most 255 definitions? If not, the chain is the first alone.
    pub fn fits(&self) -> bool
        ensures { result ≡ nat_le (length (A.Library.definitions self.now.first) + length (B.Library.definitions self.now.second)) 255 }
    {
        usize::from(self.first.count()) + usize::from(self.second.count()) <= DEFINITIONS
    }

    // What the second library has of this name, if the chain has its definitions at all.
    fn find_behind(&self, name: [u8; NAME_BYTES]) -> Option<DefinitionNumber>
        requires { None ≡ found_in (A.Library.definitions self.now.first) name }
        ensures { result ≡ found_in (chained (A.Library.definitions self.now.first) (B.Library.definitions self.now.second)) name }
    {
        if !self.fits() {
            return None;
        }
        let number = self.second.find(name)?;
        Some(DefinitionNumber(self.first.count() + number.0))
    }

    // The number that the second library has for a definition, if it is one of the second's.
    fn behind(&self, definition: DefinitionNumber) -> Option<DefinitionNumber>
        ensures { Behind (A.Library.definitions self.now.first) (B.Library.definitions self.now.second) definition.0 result }
    {
        let before = self.first.count();
        if definition.0 > before && self.fits() {
            Some(DefinitionNumber(definition.0 - before))
        } else {
            None
        }
    }
}

impl<A: Library, B: Library> Library for Chain<A, B> {
    ghost definitions = { λ c. chained (A.Library.definitions c.first) (B.Library.definitions c.second) };

    ghost lawful = { λ c. chained_lawful (A.Library.definitions c.first) (B.Library.definitions c.second) (A.Library.lawful c.first) (B.Library.lawful c.second) };

    fn find(&self, name: [u8; NAME_BYTES]) -> Option<DefinitionNumber> {
        self.first.find(name).or_else(|| self.find_behind(name))
    }

    fn count(&self) -> u16 {
        if self.fits() {
            self.first.count() + self.second.count()
        } else {
            self.first.count()
        }
    }

    fn length(&self, definition: DefinitionNumber) -> Result<u16, LibraryRefusal> {
        match self.behind(definition) {
            Some(own) => self.second.length(own),
            None => self.first.length(definition),
        }
    }

    fn statement(
        &self,
        definition: DefinitionNumber,
        statement: StatementNumber,
        buffer: &mut [u8],
    ) -> Result<usize, LibraryRefusal> {
        match self.behind(definition) {
            Some(own) => self.second.statement(own, statement, buffer),
            None => self.first.statement(definition, statement, buffer),
        }
    }
}
