// The state of an END layer.

#[derive(Clone, Copy)]
pub struct EndMachine {
    // the line END was handed out, and End is to be told
    pub(crate) seen: bool,
}
