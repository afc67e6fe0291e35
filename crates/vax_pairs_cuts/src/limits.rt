// How far pieces of code are walked.

/// How many instructions a way through a piece may have, and how many questions the piece.
#[derive(Clone, Copy)]
pub struct Limits {
    pub instructions: u32,
    pub questions: u32,
}

/// Limits that the pieces of a usual program keep.
pub const LIMITS: Limits = Limits {
    instructions: 10_000,
    questions: 1_000,
};
