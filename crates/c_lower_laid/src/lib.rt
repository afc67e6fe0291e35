//! How the trees of a function's statements are laid out: each statement's own, and round it what tests, labels and jumps give.
#![tactic(auto)]

ghost use Rattle.c_lower_laid.specs.Laid.{EachFunctionIsLaid};

/// The law: the items that a function is lowered to are those of its statements, in the order of the text. A plain assignment whose tree
/// is calm gives that one tree alone, and such a `return` where the function has no memory locals. It does nothing.
#[tactic(auto, using(crate::proofs::Laid::each_function_is_laid))]
pub fn each_function_is_laid()
    ensures { EachFunctionIsLaid }
{}
