// Cuts from which both codes have trees that say the same.
ghost use Rattle.std.specs.Prelude.{◌≡◌, ℕ, false, [], map, Some, slice_get, IfOk, OnOk};
ghost use Rattle.vax_pairs.specs.TermRuns.{run_tree};
ghost use Rattle.vax_pairs_checked.specs.Accepted as accepted;
ghost use Rattle.vax_pairs_checked.specs.Accepted.{IsShown};
ghost use Rattle.vax_pairs_walk.specs.Stepping.{is_marked};
ghost use Rattle.vax_pairs_walk.specs.Pieces.{tree_of};
ghost use Rattle.vax_pairs_cuts.specs.Views.{fact_of, cut_of};
ghost use Rattle.vax_pairs_accepted.specs.Sides.{place_of, begins};
ghost use Rattle.vax_pairs_accepted.specs.Marked.{code_of, AreMarked};

use crate::side::Side;
use vax_pairs_cuts::cut::Cut;
use vax_pairs_cuts::fact::are_named;
use vax_pairs_cuts::limits::Limits;
use vax_pairs_same::doubt::Doubt;
use vax_pairs_same::pair::Pair;
use vax_pairs_walk::code::Walk;
use vax_pairs_walk::tree::Tree;

/// A pair of codes with a certificate, and how far their pieces are walked.
#[derive(Clone, Copy)]
pub struct Checker<'a> {
    pub pair: Pair<'a>,
    pub limits: Limits,
}

// The tree of the code of a side from a cut on.
fn tree_from(walk: Walk<'_>, limits: Limits, side: Side, cut: &Cut) -> Result<Tree, Doubt>
    ensures { IfOk result (λ t. run_tree walk.entry.items.now walk.entry.layout.now (is_marked walk.entry.cuts.now) limits.instructions false
        (place_of side (cut_of cut.now)) 30 (begins side (map fact_of cut.now.facts.items)) ≡ Some (tree_of t)) }
{
    let state = side.begins(walk.alloc, &cut.facts)?;
    let mut questions = limits.questions;
    let place = side.place(cut);
    match walk.piece(&mut questions, limits.instructions, false, place, 30, state) {
        Ok(tree) => Ok(tree),
        Err(gap) => Err(Doubt::from(gap)),
    }
}

impl<'a> Checker<'a> {
    // From the cut both codes have trees that say the same.
    fn is_shown(self, cut: &Cut) -> Result<(), Doubt>
        requires { AreMarked (map cut_of self.pair.cuts.now) self.pair.first.cuts.now self.pair.second.cuts.now }
        ensures { OnOk result (IsShown (map cut_of self.entry.pair.cuts.now) (code_of self.entry.pair.first) (code_of self.entry.pair.second)
            (cut_of cut.now)) }
    {
        if !are_named(&cut.facts) {
            return Err(Doubt::NotShown);
        }
        let first = tree_from(self.pair.first, self.limits, Side::First, cut)?;
        let second = tree_from(self.pair.second, self.limits, Side::Second, cut)?;
        self.pair.same_tree(cut.rank, &first, &second)?;
        Ok(())
    }

    // A cut from which it isn't shown is put to the others, by its place of the first code.
    fn look(self, unshown: &mut Vec<usize>, cut: &Cut) -> Result<(), Doubt>
        requires { AreMarked (map cut_of self.pair.cuts.now) self.pair.first.cuts.now self.pair.second.cuts.now }
        ensures { OnOk result (unshown.new.items ≡ []
            → (unshown.old.items ≡ []) × IsShown (map cut_of self.entry.pair.cuts.now) (code_of self.entry.pair.first)
            (code_of self.entry.pair.second) (cut_of cut.now)) }
    {
        match self.is_shown(cut) {
            Ok(()) => Ok(()),
            Err(Doubt::NoMemory) => Err(Doubt::NoMemory),
            Err(Doubt::NotShown) => {
                unshown.push(cut.first)?;
                Ok(())
            }
        }
    }

    /// The places of the first code at cuts from which it isn't shown that both codes have trees that say the same.
    pub fn unshown(self) -> Result<Vec<usize>, Doubt>
        requires { AreMarked (map cut_of self.pair.cuts.now) self.pair.first.cuts.now self.pair.second.cuts.now }
        ensures { IfOk result (λ v. v.items ≡ [] → (i : ℕ) (cut : accepted.Cut) → slice_get (map cut_of self.entry.pair.cuts.now) i ≡ Some cut
            → IsShown (map cut_of self.entry.pair.cuts.now) (code_of self.entry.pair.first) (code_of self.entry.pair.second) cut) }
    {
        let mut unshown = Vec::new(self.pair.alloc);
        for cut in self.pair.cuts {
            self.look(&mut unshown, cut)?;
        }
        Ok(unshown)
    }
}
