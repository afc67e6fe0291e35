//! What is true of the code that `select` computes. The function does nothing; its clauses are laws.
#![tactic(auto)]

ghost use Rattle.sel_parse_law.specs.Claims.{CodeHasEffect, EndsTree, HasRoom, NeverBlocks, TreesHaveCode, UsesFewSlots};

use sel_target::Target;

/// The code of a typed statement tree does what the tree does, over any target that keeps the laws, in at most one slot more than the tree
/// has tokens with two kids. By tables that were checked and rules that were shown, each such tree has a code where its frame has that many
/// words.
pub fn select_has_effect<T: Target>(_target: &T)
    ensures effect { CodeHasEffect T.meaning }
    ensures few { UsesFewSlots T.meaning }
    ensures room { HasRoom T.meaning }
    ensures blocked { NeverBlocks T.meaning }
    ensures code { TreesHaveCode T.meaning }
    ensures root { EndsTree }
{}
