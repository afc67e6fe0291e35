// Programs whose functions want other locals in registers.
ghost use Rattle.std.specs.Prelude.{◌≡◌, ◌==◌, [], IfOk, OnOk};
ghost use Rattle.std.specs.List.{list_any};
ghost use Rattle.tree_homes.specs.Rehoming.{with_local, standing, IsRehomedFunction, IsRehomed};

use crate::choice::HomeChoice;
use gg_base::NoMemory;
use std::alloc::Global;
use tree_core::{LocalNumbers, TreeFn, TreeFns, TreeProgram};

// Whether a number is one of these.
fn has(numbers: &[u32], number: u32) -> bool
    ensures { result ≡ list_any (λ k. k == number) numbers.now }
{
    numbers.iter().any(|other| *other == number)
}

// One number more, if it is a local's and not there yet.
#[tactic(auto, using(crate::proofs::Standing::new_is_kept, crate::proofs::Standing::none_is_kept, crate::proofs::Standing::old_is_kept))]
fn keep(locals: u32, kept: &mut Vec<u32>, number: u32) -> Result<(), NoMemory>
    ensures { OnOk result (kept.new.items ≡ with_local locals kept.old.items number) }
{
    if number < locals && !has(kept.as_slice(), number) {
        kept.push(number)?;
    }
    Ok(())
}

// Those of the numbers that are below how many locals there are, each where it stands first.
fn standing(alloc: Global, locals: u32, numbers: &[u32]) -> Result<LocalNumbers, NoMemory>
    ensures { IfOk result (λ kept. kept ≡ standing locals [] numbers.now) }
{
    let mut kept: Vec<u32> = Vec::new(alloc);
    for number in numbers {
        keep(locals, &mut kept, *number)?;
    }
    Ok(LocalNumbers::from_vec(kept))
}

// The function with the locals that are chosen of it.
fn rehomed_function<H: HomeChoice>(
    alloc: Global,
    homes: &H,
    function: TreeFn,
) -> Result<TreeFn, NoMemory>
    ensures { IfOk result (IsRehomedFunction (λ f l. H.chooses homes.now f l) function) }
{
    let chosen = homes.choose(alloc, &function)?;
    let wanted = standing(alloc, function.locals, chosen.as_slice())?;
    Ok(TreeFn {
        name: function.name,
        args: function.args,
        locals: function.locals,
        wanted,
        items: function.items,
    })
}

/// The program, each of whose functions wants in registers what the choice lists of it. All else stays, so it does the same.
pub fn rehomed<H: HomeChoice>(
    alloc: Global,
    homes: &H,
    program: TreeProgram,
) -> Result<TreeProgram, NoMemory>
    ensures { IfOk result (IsRehomed (λ f l. H.chooses homes.now f l) program) }
{
    let mut functions = Vec::new(alloc);
    for function in program.functions.into_vec() {
        functions.push(rehomed_function(alloc, homes, function)?)?;
    }
    Ok(TreeProgram {
        functions: TreeFns::from_vec(functions),
        objects: program.objects,
    })
}
