// Libraries that stand somewhere: over a text, and one behind another.
#![tactic(auto)]

pub mod chain;
pub mod chains;
pub mod entry;
mod index;
mod places;
pub mod text;
pub mod texts;

pub use chain::Chain;
pub use text::TextLibrary;

#[cfg(test)]
mod tests {
    use super::*;
    use crate::chains::chain;
    use libraries::{Library, LibraryRefusal};
    use lines::padded_name;
    use sources::{DefinitionNumber, StatementNumber};
    use std::test::Fail;

    const PANEL: &[u8] =
        b" MACRO\n%L SMOKE %LP,%AD\n%L DCZ %LP,%AD\n MEND\n MACRO\n HEAT %Z\n MEND\n";

    const BUILDING: &[u8] = b" MACRO\n HEAT %ZONE\n DC %ZONE\n MEND\n MACRO\n BELL\n MEND\n";

    // The number that is found, or 0.
    fn found<L: Library>(library: &L, name: &[u8]) -> u16 {
        library.find(padded_name(name)).map_or(0, |number| number.0)
    }

    // The panel's library finds its own, then the building's; of two of one name the first.
    #[test]
    fn one_behind_another(rt: HostRuntime) -> Result<(), Fail> {
        let both = chain(TextLibrary::new(PANEL), TextLibrary::new(BUILDING));
        assert!(rt; both.fits() && both.count() == 4);
        assert!(rt; found(&both, b"SMOKE") == 1 && found(&both, b"HEAT") == 2);
        assert!(rt; found(&both, b"BELL") == 4 && found(&both, b"SMOK") == 0);
        let mut buffer = [b'.'; 81];
        let put = both.statement(DefinitionNumber(3), StatementNumber(2), &mut buffer);
        assert!(rt; matches!(put, Ok(9)) && &buffer[0..10] == b" DC %ZONE ".as_slice());
        let missing = both.statement(DefinitionNumber(5), StatementNumber(1), &mut buffer);
        assert!(rt; matches!(missing, Err(LibraryRefusal::Missing)));
        Ok(())
    }
}
