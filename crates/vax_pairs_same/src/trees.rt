// Trees that say the same.
ghost use Rattle.std.specs.Prelude.{◌≡◌, map, List, OnOk};
ghost use Rattle.vax_pairs.specs.Facts.{Fact, AreSo};
ghost use Rattle.vax_pairs.specs.SameTrees.{SameTree};
ghost use Rattle.vax_pairs_checked.specs.Accepted.{IsCut};
ghost use Rattle.vax_pairs_walk.specs.Pieces.{tree_of};
ghost use Rattle.vax_pairs_cuts.specs.Views.{cut_of};

use crate::answers::same_answer;
use crate::doubt::Doubt;
use crate::events::same_events;
use crate::pair::Pair;
use vax_pairs_walk::tree::Tree;

// As many arguments are given, to the same function.
fn same_callee(count: u32, name: &[u8], others_count: u32, others_name: &[u8]) -> Result<(), Doubt>
    ensures { OnOk result ((count ≡ others_count) × (name.now ≡ others_name.now)) }
{
    if count == others_count && name == others_name {
        return Ok(());
    }
    Err(Doubt::NotShown)
}

impl<'a> Pair<'a> {
    /// The two trees say the same, from a cut of this rank on.
    #[tactic(auto, using(crate::proofs::Emitting::events_then))]
    pub fn same_tree(self, rank: u32, a: &Tree, b: &Tree) -> Result<(), Doubt>
        ensures { OnOk result (SameTree (List Fact) AreSo (IsCut (map cut_of self.entry.cuts.now)) self.entry.first.items.now self.entry.second.items.now
            rank (tree_of a.now) (tree_of b.now)) }
    {
        let alloc = self.alloc;
        match (a, b) {
            (Tree::Asks(es, test, s, yes, no), Tree::Asks(fs, other, t, others_yes, others_no)) => {
                same_events(alloc, es, fs)?;
                same_answer(alloc, *test, s, *other, t)?;
                self.same_tree(rank, yes, others_yes)?;
                self.same_tree(rank, no, others_no)?;
                Ok(())
            }
            (Tree::Arrives(es, moved, place, s), Tree::Arrives(fs, others_moved, other, t)) => {
                same_events(alloc, es, fs)?;
                self.same_arrival(rank, (*moved, *others_moved), (*place, *other), s, t)?;
                Ok(())
            }
            (
                Tree::Calls(es, count, name, place, s),
                Tree::Calls(fs, others_count, others_name, other, t),
            ) => {
                let name = name.as_slice();
                same_callee(*count, name, *others_count, others_name.as_slice())?;
                same_events(alloc, es, fs)?;
                self.same_call(name, (*place, *other), s, t)?;
                Ok(())
            }
            (Tree::Returns(es, _, s), Tree::Returns(fs, _, t)) => {
                same_events(alloc, es, fs)?;
                self.same_return(s, t)?;
                Ok(())
            }
            _ => Err(Doubt::NotShown),
        }
    }
}
