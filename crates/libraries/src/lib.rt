// Macro libraries: what every library owes, lawful definitions, and the check of a library text.
#![tactic(auto)]

pub mod check;
pub mod flaws;
pub mod library;
pub mod parameters;
pub mod prototypes;
pub mod reader;
pub mod refusals;
pub mod seen;
pub mod table;
pub mod words;

pub use check::{check_text, ends_definition};
pub use flaws::{LibraryCause, LibraryFault};
pub use library::Library;
pub use prototypes::is_prototype;
pub use reader::DEFINITIONS;
pub use refusals::LibraryRefusal;
