//! Laws of lowering: in no tree is memory read behind a division, and a plain statement is one tree.
#![tactic(auto)]

ghost use Rattle.c_lower_calm.specs.Claim.{EachTreeIsCalm, PlainIsOneTree, PlainStatementsAreOneTree};

/// The law: the trees that a program is lowered to are calm. It does nothing.
#[tactic(auto, using(crate::proofs::Law::each_tree_is_calm))]
pub fn each_tree_is_calm()
    ensures { EachTreeIsCalm }
{}

/// The law: a plain `return e` or `a = e` whose tree is calm is that one tree, part for part. It does nothing.
pub fn plain_is_one_tree()
    ensures { PlainIsOneTree }
{}

/// The law: in each function, the items of the program's statements stand in order, and those of a plain assignment whose tree is calm
/// are that one root, and of such a `return` where the function has no memory locals. It does nothing.
pub fn plain_statements_are_one_tree()
    ensures { PlainStatementsAreOneTree }
{}
