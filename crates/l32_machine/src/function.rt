// The table of instructions: what each does, and what it computes.
ghost use Rattle.std.specs.Prelude.{◌≡◌, ◌%◌};
ghost use Rattle.gg_base.specs.Arithmetic.{shifted_left, shifted_right};
ghost use Rattle.l32_machine.specs.Functions.{action_of, extended, applied};

use gg_base::{Rel, Size, w32};
use l32_core::Op32;

/// What an instruction does with its operands.
#[derive(Clone, Copy)]
pub enum Action {
    /// It computes a result and puts it where it goes.
    Compute(Function),
    /// It goes to its label where the relation holds.
    Branch(Rel),
    /// It goes to its label.
    Jump,
    Push,
    /// It makes room on the stack.
    Enter,
    Call,
    Return,
}

/// What an instruction computes.
#[derive(Clone, Copy)]
pub enum Function {
    Copy,
    /// From this size to a longword, with the sign copied.
    SignExtend(Size),
    Negate,
    Complement,
    Add,
    Subtract,
    Multiply,
    Divide,
    And,
    Or,
    ExclusiveOr,
    ShiftLeft,
    ShiftRight,
}

/// What an instruction does: its row of the table of functions.
#[inline(always)]
pub fn action_of(op: Op32) -> Action
    ensures { result ≡ action_of op }
{
    match op {
        Op32::Li => Action::Compute(Function::Copy),
        Op32::La => Action::Compute(Function::Copy),
        Op32::Lb => Action::Compute(Function::SignExtend(Size::Byte)),
        Op32::Lbu => Action::Compute(Function::Copy),
        Op32::Lh => Action::Compute(Function::SignExtend(Size::Word)),
        Op32::Lhu => Action::Compute(Function::Copy),
        Op32::Lw => Action::Compute(Function::Copy),
        Op32::Sb => Action::Compute(Function::Copy),
        Op32::Sh => Action::Compute(Function::Copy),
        Op32::Sw => Action::Compute(Function::Copy),
        Op32::Sta => Action::Compute(Function::Copy),
        Op32::Neg => Action::Compute(Function::Negate),
        Op32::Not => Action::Compute(Function::Complement),
        Op32::Add => Action::Compute(Function::Add),
        Op32::Sub => Action::Compute(Function::Subtract),
        Op32::Mul => Action::Compute(Function::Multiply),
        Op32::Div => Action::Compute(Function::Divide),
        Op32::And => Action::Compute(Function::And),
        Op32::Or => Action::Compute(Function::Or),
        Op32::Xor => Action::Compute(Function::ExclusiveOr),
        Op32::Sll => Action::Compute(Function::ShiftLeft),
        Op32::Sra => Action::Compute(Function::ShiftRight),
        Op32::Beq => Action::Branch(Rel::Eq),
        Op32::Bne => Action::Branch(Rel::Ne),
        Op32::Blt => Action::Branch(Rel::Lt),
        Op32::Ble => Action::Branch(Rel::Le),
        Op32::Bgt => Action::Branch(Rel::Gt),
        Op32::Bge => Action::Branch(Rel::Ge),
        Op32::Bltu => Action::Branch(Rel::Ltu),
        Op32::Bleu => Action::Branch(Rel::Leu),
        Op32::Bgtu => Action::Branch(Rel::Gtu),
        Op32::Bgeu => Action::Branch(Rel::Geu),
        Op32::B => Action::Jump,
        Op32::Push => Action::Push,
        Op32::Enter => Action::Enter,
        Op32::Call => Action::Call,
        Op32::Ret => Action::Return,
    }
}

fn extended(size: Size, value: u32) -> u32
    ensures { result ≡ extended size value }
{
    match size {
        Size::Byte => w32::sext8(value),
        Size::Word => w32::sext16(value),
        Size::Long => value,
    }
}

// Zeros come in from the right; the places count modulo 32.
fn shifted_left(places: u32, x: u32) -> u32
    ensures { result ≡ shifted_left (places % 32) x }
{
    x.wrapping_mul(1 << (places % 32))
}

// Copies of the sign come in from the left; the places count modulo 32.
fn shifted_right(places: u32, x: u32) -> u32
    ensures { result ≡ shifted_right (places % 32) x }
{
    let places = places % 32;
    if x >= 0x8000_0000 {
        w32::com(w32::com(x) >> places)
    } else {
        x >> places
    }
}

impl Function {
    /// What is computed of the numbers `x` and `y`, in their order in the line; None where a divisor is zero.
    pub(crate) fn apply(self, x: u32, y: u32) -> Option<u32>
        ensures { result ≡ applied self x y }
    {
        match self {
            Function::Copy => Some(x),
            Function::SignExtend(size) => Some(extended(size, x)),
            Function::Negate => Some(w32::neg(x)),
            Function::Complement => Some(w32::com(x)),
            Function::Add => Some(w32::add(x, y)),
            Function::Subtract => Some(w32::sub(x, y)),
            Function::Multiply => Some(w32::mul(x, y)),
            Function::Divide => w32::div(x, y),
            Function::And => Some(w32::and(x, y)),
            Function::Or => Some(w32::or(x, y)),
            Function::ExclusiveOr => Some(w32::xor(x, y)),
            Function::ShiftLeft => Some(shifted_left(y, x)),
            Function::ShiftRight => Some(shifted_right(y, x)),
        }
    }
}
