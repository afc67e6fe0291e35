// What is wrong with what was found.

/// What is wrong with what was found, and where: the token of the place with the number isn't shifted;
/// behind the list of the settling with the number some answers take nothing; from the list of the
/// settling, a class alone, reductions lead along these classes back to it.
#[derive(Debug, Drop)]
pub enum Flaw {
    Gap(usize),
    Dead(usize),
    Circle(usize, Vec<u16>),
}
