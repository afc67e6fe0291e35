//! Trees from C programs: effects go into temporaries, so that every tree is pure but for its root.
#![tactic(auto)]

ghost use Rattle.std.specs.Prelude.{◌≡◌, IfOk};
ghost use Rattle.tree_core.specs.Valid.{IsValid};
ghost use Rattle.c_program.specs.Programs.{program};
ghost use Rattle.c_lower_scheme.specs.Programs.{lowered};
ghost use Rattle.c_lower_calm.specs.Claim.{TreesAreCalm, PlainStatementsStand};
ghost use Rattle.c_lower.specs.Claims.{FollowsAlways, HasParts};

use c_typed::Program;
use gg_base::NoMemory;
use std::alloc::Global;
use tree_core::TreeProgram;

/// The trees of a program: on every input their run follows the program's. They are a valid tree program with the program's
/// functions, each of which fits the frame that it needs and lists its `register` locals, and its objects, whose labels differ and
/// can be spelled; in none is memory read behind a division, and a plain statement is one tree.
pub fn lower(alloc: Global, source: &Program) -> Result<TreeProgram, NoMemory>
    ensures trees { IfOk result (λ q. q ≡ lowered (program source.now.held)) }
    ensures follows { IfOk result (λ q. ∥ FollowsAlways (program source.now.held) q ∥₁) }
    ensures valid { IfOk result (λ q. ∥ IsValid q ∥₁) }
    ensures calm { IfOk result TreesAreCalm }
    ensures parts { IfOk result (HasParts (program source.now.held)) }
    ensures plain { IfOk result (PlainStatementsStand (program source.now.held)) }
{
    c_lower_code::lower(alloc, source.plain())
}
