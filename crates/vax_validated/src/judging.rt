// Whether a code is shown to behave as another.
ghost use Rattle.std.specs.Prelude.{◌≡◌, true, IsTrue, IfOk};
ghost use Rattle.vax_core.specs.Valid.{is_code};
ghost use Rattle.vax_machine.specs.Loading.{Loads};
ghost use Rattle.vax_validated.specs.Judged.{IsJudged, IsVerdict, AreSound};

use gg_base::NoMemory;
use std::alloc::Global;
use vax_core::Code;
use vax_machine::loading::{LoadFault, load};
use vax_pairs_accepted::pairs::unshown;
use vax_pairs_checked::laws::accepted_codes_are_alike;
use vax_pairs_cuts::cut::Cut;
use vax_pairs_cuts::limits::LIMITS;
use vax_pairs_masks::keeps_masks;
use vax_pairs_same::doubt::Doubt;
use vax_pairs_search::{Heads, search};

// Whether a code can be run.
fn loads(alloc: Global, code: &Code) -> Result<bool, NoMemory>
    requires { is_code code.now ≡ true }
    ensures { IfOk result (λ b. IsTrue b → Loads code.now) }
{
    match load(alloc, code, &[]) {
        Ok(_) => Ok(true),
        Err(LoadFault::NoMemory) => Err(NoMemory),
        Err(_) => Ok(false),
    }
}

/// What is seen of two codes.
#[derive(Drop)]
pub enum Verdict {
    /// The second behaves as the first.
    Alike,
    /// It isn't shown of the pieces from these places of the first.
    Apart(Vec<usize>),
    /// It isn't shown that the second behaves as the first.
    Open,
}

// Whether each of two codes keeps the registers that its masks lack, and the second can be written and run.
fn are_sound(alloc: Global, c: &Code, d: &Code) -> Result<bool, NoMemory>
    ensures { IfOk result (λ b. IsTrue b → AreSound c.now d.now) }
{
    if !d.valid() {
        return Ok(false);
    }
    if !keeps_masks(alloc, c.items.as_slice())? {
        return Ok(false);
    }
    if !keeps_masks(alloc, d.items.as_slice())? {
        return Ok(false);
    }
    Ok(loads(alloc, d)?)
}

// What is seen where it isn't shown of the pieces from these places.
fn seen(places: Vec<usize>) -> Verdict
    ensures { IsVerdict places.items result }
{
    if places.is_empty() {
        Verdict::Alike
    } else {
        Verdict::Apart(places)
    }
}

// What is seen of two sound codes by these cuts.
fn judge_by(alloc: Global, c: &Code, d: &Code, cuts: &[Cut]) -> Result<Verdict, NoMemory>
    requires valid { is_code c.now ≡ true }
    requires sound { AreSound c.now d.now }
    ensures { IfOk result (IsJudged c.now d.now) }
{
    accepted_codes_are_alike();
    match unshown(alloc, LIMITS, c, d, cuts) {
        Ok(places) => Ok(seen(places)),
        Err(Doubt::NotShown) => Ok(Verdict::Open),
        Err(Doubt::NoMemory) => Err(NoMemory),
    }
}

/// Looks for a certificate that the second code behaves as the first, and checks it.
pub fn judge(alloc: Global, heads: Heads, c: &Code, d: &Code) -> Result<Verdict, NoMemory>
    requires { is_code c.now ≡ true }
    ensures { IfOk result (IsJudged c.now d.now) }
{
    if !are_sound(alloc, c, d)? {
        return Ok(Verdict::Open);
    }
    let cuts = search(alloc, heads, c, d)?;
    judge_by(alloc, c, d, &cuts)
}
