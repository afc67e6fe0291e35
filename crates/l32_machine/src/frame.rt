// One live call.

/// What a call notes, beside the memory, for its return.
#[derive(Clone, Copy)]
pub struct Frame32 {
    /// a0 to a11 at the call; all but a0 are taken back.
    pub general: [u32; 12],
    /// The frame pointer at the call.
    pub fp: u32,
    /// The stack pointer behind the arguments.
    pub sp: u32,
    /// The place of the item to go on at; None where the `ret` ends the run.
    pub back: Option<usize>,
}
