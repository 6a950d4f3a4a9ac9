// How deep a byte stands in apostrophes and parentheses.

#[derive(Clone, Copy, Default)]
pub struct Nest {
    // itself what is asked, with no value beside it
    pub quoted: bool,
    pub depth: usize,
}
