// What a round looks at.

/// So many places and settlings were looked at together before. None: all is looked at.
#[derive(Clone, Copy, Debug)]
pub struct Window {
    pub places: usize,
    pub settlings: usize,
}
