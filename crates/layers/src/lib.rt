// Layers over any source: the engine that runs any machine, and the END layer.
#![tactic(auto)]

pub mod end;
pub mod ends;
pub mod layered;
pub mod machine;
pub mod machines;

pub use end::EndMachine;
pub use ends::end_layer;
pub use layered::{Layered, over};
pub use machine::Deed;
pub use machines::Machine;
