// Sources of priced lines: faults, answers and refusals, the trait every source meets, and the text source.
#![tactic(auto)]

pub mod answers;
pub mod faults;
pub mod line;
pub mod requests;
pub mod source;
pub mod text;
pub mod texts;
pub mod writing;

pub use answers::{Answer, Refusal, Reply, Told};
pub use faults::{Cause, DefinitionNumber, Ending, Fault, StatementNumber, passed_up};
pub use line::Line;
pub use requests::{admit, ask, deliver};
pub use source::Source;
pub use text::TextSource;
