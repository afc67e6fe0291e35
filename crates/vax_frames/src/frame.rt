// The code of a function.
ghost use Rattle.std.specs.Prelude.{◌≡◌, ◌*◌, ◌≤◌, ◌<◌, ◌++◌, [], ◌∷◌, None, IfOk};
ghost use Rattle.gg_base.specs.declared.limits.TheConstants.{NEED_LIMIT};
ghost use Rattle.tree_core.specs.Names.{function_label};
ghost use Rattle.vax_core.specs.Homes as homes;
ghost use Rattle.vax_core.specs.declared.op.Op.TheVariants.{Subl2, Clrl, Ret};
ghost use Rattle.vax_core.specs.declared.register.Reg.TheVariants.{R0, Sp};
ghost use Rattle.vax_core.specs.declared.code.CodeItem.TheVariants as item_kind;
ghost use Rattle.vax_core.specs.First.{imm, in_reg};
ghost use Rattle.vax_frames.specs.Frames.{instr, frame_head, IsFrameCode};

use crate::mask::entry_mask;
use gg_base::{Name, NoMemory};
use std::alloc::{AllocError, Global};
use tree_core::TreeFn;
use tree_core::spelling::function_label;
use vax_core::{Addr, Base, CodeItem, Instr, Op, Operand, Operands, Reg};

/// The home of a local: `-4(k+1)(fp)` for local k.
pub fn home(local: u32) -> Operand
    requires { local < NEED_LIMIT }
    ensures { result ≡ homes.home local }
{
    Operand::home(local)
}

fn number(n: u32) -> Operand
    ensures { result ≡ imm n }
{
    Operand {
        base: Base::Imm(Addr {
            name: None,
            offset: n,
        }),
        index: None,
    }
}

fn register(r: Reg) -> Operand
    ensures { result ≡ in_reg r }
{
    Operand {
        base: Base::Reg(r),
        index: None,
    }
}

fn instr(op: Op, operands: Operands) -> CodeItem
    ensures { result ≡ item_kind.Instr (instr op operands) }
{
    CodeItem::Instr(Instr {
        op,
        operands,
        target: None,
    })
}

// `subl2 $n,sp`
fn lower_sp(alloc: Global, bytes: u32) -> Result<CodeItem, AllocError>
    ensures { IfOk result (λ i. i ≡ item_kind.Instr (instr Subl2 (imm bytes ∷ (in_reg Sp ∷ [])))) }
{
    let mut operands = Operands::with_room(alloc, 2)?;
    operands.push(number(bytes))?;
    operands.push(register(Reg::Sp))?;
    Ok(instr(Op::Subl2, operands))
}

// `clrl r0`
fn clear_r0(alloc: Global) -> Result<CodeItem, AllocError>
    ensures { IfOk result (λ i. i ≡ item_kind.Instr (instr Clrl (in_reg R0 ∷ []))) }
{
    let mut operands = Operands::with_room(alloc, 1)?;
    operands.push(register(Reg::R0))?;
    Ok(instr(Op::Clrl, operands))
}

// `ret`
fn ret(alloc: Global) -> CodeItem
    ensures { result ≡ item_kind.Instr (instr Ret []) }
{
    instr(Op::Ret, Operands::new(alloc))
}

// What stands before the body.
#[tactic(auto, using(crate::proofs::HeadLaws::no_room, crate::proofs::HeadLaws::some_room))]
fn frame_head(alloc: Global, name: &Name, mask: u16, words: u32) -> Result<Vec<CodeItem>, NoMemory>
    requires { words ≤ NEED_LIMIT }
    ensures { IfOk result (λ head. head.items ≡ frame_head (function_label name.now) mask words) }
{
    let mut head = Vec::new(alloc);
    head.push(CodeItem::Globl(function_label(alloc, name)?))?;
    head.push(CodeItem::Label(function_label(alloc, name)?))?;
    head.push(CodeItem::Mask(mask))?;
    if words != 0 {
        head.push(lower_sp(alloc, 4 * words)?)?;
    }
    Ok(head)
}

/// The code of a function with this body and so many frame words: `.globl` and label of its name with `_` in front, the
/// mask of the registers among r2 to r11 that the body names, `subl2 $n,sp` with n four times the words where that
/// isn't 0, the body, `clrl r0` and `ret`.
#[tactic(auto, using(crate::proofs::HeadLaws::is_frame))]
pub fn frame_code(
    alloc: Global,
    f: &TreeFn,
    body: Vec<CodeItem>,
    words: u32,
) -> Result<Vec<CodeItem>, NoMemory>
    requires { words ≤ NEED_LIMIT }
    ensures { IfOk result (λ code. IsFrameCode f.now.name words body.items code.items) }
{
    let mask = entry_mask(&body);
    let mut code = frame_head(alloc, &f.name, mask, words)?;
    let mut rest = body;
    code.append(&mut rest)?;
    code.push(clear_r0(alloc)?)?;
    code.push(ret(alloc))?;
    Ok(code)
}
