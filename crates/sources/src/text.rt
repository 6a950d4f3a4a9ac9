// The text source: the lines of a byte slice, each at one step, and its ending at one step.
use crate::faults::Ending;
use lines::Lines;

#[derive(Drop)]
pub struct TextSource<'a> {
    // the lines that are left
    pub(crate) lines: Lines<'a>,
    // the lines taken so far, counted beside the iterator because the count stops at the highest line number
    pub(crate) taken: u32,
    // the ending, once it is told
    pub(crate) told: Option<Ending>,
}
