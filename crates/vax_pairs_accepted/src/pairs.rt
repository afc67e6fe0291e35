// Whether two codes are accepted as a pair.
ghost use Rattle.std.specs.Prelude.{◌≡◌, [], map, IfOk};
ghost use Rattle.vax_pairs_checked.specs.Masks.{KeepsMasks};
ghost use Rattle.vax_pairs_checked.specs.Accepted.{AreAccepted};
ghost use Rattle.vax_pairs_cuts.specs.Views.{cut_of};

use crate::area::same_area;
use crate::shown::Checker;
use crate::side::Side;
use std::alloc::Global;
use vax_core::Code;
use vax_pairs_cuts::cut::Cut;
use vax_pairs_cuts::limits::Limits;
use vax_pairs_same::doubt::Doubt;
use vax_pairs_same::pair::Pair;
use vax_pairs_walk::code::Walk;

/// The places of the first code at cuts from which it isn't shown that both codes do the same. Where there are none, the two codes are
/// accepted as a pair, if each of them keeps the registers that its masks lack.
///
/// `NotShown` where the data areas differ, the functions `_main` don't begin alike, or a cut is no place of a code.
pub fn unshown(
    alloc: Global,
    limits: Limits,
    c: &Code,
    d: &Code,
    cuts: &[Cut],
) -> Result<Vec<usize>, Doubt>
    ensures { IfOk result (λ v. v.items ≡ [] → KeepsMasks c.now.items → KeepsMasks d.now.items
        → AreAccepted (map cut_of cuts.now) c.now d.now) }
{
    let items = c.items.as_slice();
    let others = d.items.as_slice();
    if !same_area(c.area.as_slice(), d.area.as_slice()) {
        return Err(Doubt::NotShown);
    }
    let firsts = Side::First.marks(alloc, cuts, items.len() + 1)?;
    let seconds = Side::Second.marks(alloc, cuts, others.len() + 1)?;
    let first = Walk {
        alloc,
        layout: c.area.as_slice(),
        items,
        cuts: &firsts,
    };
    let second = Walk {
        alloc,
        layout: d.area.as_slice(),
        items: others,
        cuts: &seconds,
    };
    let pair = Pair {
        alloc,
        cuts,
        first,
        second,
    };
    pair.both_enter(b"_main")?;
    let unshown = Checker { pair, limits }.unshown()?;
    Ok(unshown)
}
