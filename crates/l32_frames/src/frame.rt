// The code of a function.
ghost use Rattle.std.specs.Prelude.{◌≡◌, [], ◌∷◌, IfOk};
ghost use Rattle.l32_core.specs.declared.op.Op32.TheVariants.{Li, Ret};
ghost use Rattle.l32_core.specs.declared.operand.Operand32.TheVariants as operands;
ghost use Rattle.l32_core.specs.declared.code.Item32.TheVariants as item_kind;
ghost use Rattle.l32_frames.specs.Frames.{instr, enter, function_items};

use gg_base::NoMemory;
use l32_core::{Instr32, Item32, Op32, Operand32, Operands32};
use std::alloc::{AllocError, Global};
use tree_core::TreeFn;
use tree_core::spelling::function_label;

fn instr(op: Op32, operands: Operands32) -> Item32
    ensures { result ≡ item_kind.Instr (instr op operands) }
{
    Item32::Instr(Instr32 {
        op,
        operands,
        target: None,
    })
}

// `enter $n`
fn enter(alloc: Global, words: u32) -> Result<Item32, AllocError>
    ensures { IfOk result (λ i. i ≡ item_kind.Instr (enter words)) }
{
    let mut operands = Operands32::with_room(alloc, 1)?;
    operands.push(Operand32::Num(words))?;
    Ok(instr(Op32::Enter, operands))
}

// `li a0,$0`
fn clear_a0(alloc: Global) -> Result<Item32, AllocError>
    ensures { IfOk result (λ i. i ≡ item_kind.Instr (instr Li (operands.Reg 0 ∷ (operands.Num 0 ∷ [])))) }
{
    let mut operands = Operands32::with_room(alloc, 2)?;
    operands.push(Operand32::Reg(0))?;
    operands.push(Operand32::Num(0))?;
    Ok(instr(Op32::Li, operands))
}

// `ret`
fn ret(alloc: Global) -> Item32
    ensures { result ≡ item_kind.Instr (instr Ret []) }
{
    instr(Op32::Ret, Operands32::new(alloc))
}

/// The code of a function with this body and so many frame words: the label of its name with `_` in front, `enter $n`
/// with n the words, the body, `li a0,$0` and `ret`. More than `NEED_LIMIT` words can't be written.
pub fn frame_code(
    alloc: Global,
    f: &TreeFn,
    body: Vec<Item32>,
    words: u32,
) -> Result<Vec<Item32>, NoMemory>
    ensures { IfOk result (λ code. code.items ≡ function_items f.now.name words body.items) }
{
    let mut code = Vec::new(alloc);
    code.push(Item32::Label(function_label(alloc, &f.name)?))?;
    code.push(enter(alloc, words)?)?;
    let mut rest = body;
    code.append(&mut rest)?;
    code.push(clear_a0(alloc)?)?;
    code.push(ret(alloc))?;
    Ok(code)
}
