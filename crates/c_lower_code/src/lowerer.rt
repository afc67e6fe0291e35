// What lowers the phrases of a function.
use c_lower_parts::part::Frame;

/// Lowers the phrases of one function, in its frame.
#[derive(Clone, Copy)]
pub struct Lowerer {
    pub frame: Frame,
}
