// The table of instructions: what each computes, and what becomes of the condition codes.
ghost use Rattle.std.specs.Prelude.{◌≡◌, ◌+◌, ◌^◌, nat_le};
ghost use Rattle.vax_machine.specs.Functions.{action_of, is_negative_at, extended, valued, only_conditions, quotient};
ghost use Rattle.vax_machine.specs.Functions.{applied, passes};

use crate::memory::low;
use gg_base::{Rel, Size, w32};
use vax_core::Op;

/// The condition codes N, Z and C.
#[derive(Clone, Copy)]
pub struct Conditions {
    pub negative: bool,
    pub is_zero: bool,
    pub carry: bool,
}

impl Conditions {
    pub(crate) const CLEARED: Conditions = Conditions {
        negative: false,
        is_zero: false,
        carry: false,
    };
}

/// What an instruction does with its operands.
#[derive(Clone, Copy)]
pub enum Action {
    /// It computes a result and writes it where its last operand says.
    Compute(Function),
    Push,
    Branch(Test),
    Call,
    Return,
}

/// What an instruction computes, by the names of the VAX Architecture Handbook.
#[derive(Clone, Copy)]
pub enum Function {
    /// N and Z are looked at at this size.
    Copy(Size),
    Clear,
    Negate,
    Complement,
    /// From this size to a longword.
    SignExtend(Size),
    /// From a longword to this size.
    Truncate(Size),
    Add,
    Subtract,
    Multiply,
    Divide,
    Increment,
    Decrement,
    BitSet,
    BitClear,
    ExclusiveOr,
    BitTest,
    Shift,
    Compare(Size),
    CompareWithZero(Size),
}

/// When a branch is taken.
#[derive(Clone, Copy)]
pub enum Test {
    Always,
    Equal,
    NotEqual,
    Less,
    LessOrEqual,
    Greater,
    GreaterOrEqual,
    LessUnsigned,
    LessOrEqualUnsigned,
    GreaterUnsigned,
    GreaterOrEqualUnsigned,
}

/// A result and the condition codes after it.
#[derive(Clone, Copy)]
pub struct Computed {
    pub value: u32,
    pub conditions: Conditions,
}

/// What an instruction does, by the VAX Architecture Handbook: its row of the table of functions.
#[inline(always)]
pub fn action_of(op: Op) -> Action
    ensures { result ≡ action_of op }
{
    match op {
        Op::Movb => Action::Compute(Function::Copy(Size::Byte)),
        Op::Movw => Action::Compute(Function::Copy(Size::Word)),
        Op::Movl => Action::Compute(Function::Copy(Size::Long)),
        Op::Clrb => Action::Compute(Function::Clear),
        Op::Clrw => Action::Compute(Function::Clear),
        Op::Clrl => Action::Compute(Function::Clear),
        Op::Mnegl => Action::Compute(Function::Negate),
        Op::Mcoml => Action::Compute(Function::Complement),
        Op::Pushl => Action::Push,
        Op::Cvtbl => Action::Compute(Function::SignExtend(Size::Byte)),
        Op::Cvtwl => Action::Compute(Function::SignExtend(Size::Word)),
        Op::Cvtlb => Action::Compute(Function::Truncate(Size::Byte)),
        Op::Cvtlw => Action::Compute(Function::Truncate(Size::Word)),
        Op::Movzbl => Action::Compute(Function::Copy(Size::Long)),
        Op::Movzwl => Action::Compute(Function::Copy(Size::Long)),
        Op::Movab => Action::Compute(Function::Copy(Size::Long)),
        Op::Movaw => Action::Compute(Function::Copy(Size::Long)),
        Op::Moval => Action::Compute(Function::Copy(Size::Long)),
        Op::Addl2 => Action::Compute(Function::Add),
        Op::Addl3 => Action::Compute(Function::Add),
        Op::Subl2 => Action::Compute(Function::Subtract),
        Op::Subl3 => Action::Compute(Function::Subtract),
        Op::Mull2 => Action::Compute(Function::Multiply),
        Op::Mull3 => Action::Compute(Function::Multiply),
        Op::Divl2 => Action::Compute(Function::Divide),
        Op::Divl3 => Action::Compute(Function::Divide),
        Op::Incl => Action::Compute(Function::Increment),
        Op::Decl => Action::Compute(Function::Decrement),
        Op::Bisl2 => Action::Compute(Function::BitSet),
        Op::Bisl3 => Action::Compute(Function::BitSet),
        Op::Bicl2 => Action::Compute(Function::BitClear),
        Op::Bicl3 => Action::Compute(Function::BitClear),
        Op::Xorl2 => Action::Compute(Function::ExclusiveOr),
        Op::Xorl3 => Action::Compute(Function::ExclusiveOr),
        Op::Bitl => Action::Compute(Function::BitTest),
        Op::Ashl => Action::Compute(Function::Shift),
        Op::Cmpb => Action::Compute(Function::Compare(Size::Byte)),
        Op::Cmpw => Action::Compute(Function::Compare(Size::Word)),
        Op::Cmpl => Action::Compute(Function::Compare(Size::Long)),
        Op::Tstb => Action::Compute(Function::CompareWithZero(Size::Byte)),
        Op::Tstw => Action::Compute(Function::CompareWithZero(Size::Word)),
        Op::Tstl => Action::Compute(Function::CompareWithZero(Size::Long)),
        Op::Jbr => Action::Branch(Test::Always),
        Op::Jeql => Action::Branch(Test::Equal),
        Op::Jneq => Action::Branch(Test::NotEqual),
        Op::Jlss => Action::Branch(Test::Less),
        Op::Jleq => Action::Branch(Test::LessOrEqual),
        Op::Jgtr => Action::Branch(Test::Greater),
        Op::Jgeq => Action::Branch(Test::GreaterOrEqual),
        Op::Jlssu => Action::Branch(Test::LessUnsigned),
        Op::Jlequ => Action::Branch(Test::LessOrEqualUnsigned),
        Op::Jgtru => Action::Branch(Test::GreaterUnsigned),
        Op::Jgequ => Action::Branch(Test::GreaterOrEqualUnsigned),
        Op::Calls => Action::Call,
        Op::Ret => Action::Return,
    }
}

fn is_negative_at(size: Size, value: u32) -> bool
    ensures { result ≡ is_negative_at size value }
{
    match size {
        Size::Byte => value >= 0x80,
        Size::Word => value >= 0x8000,
        Size::Long => value >= 0x8000_0000,
    }
}

fn extended(size: Size, value: u32) -> u32
    ensures { result ≡ extended size value }
{
    match size {
        Size::Byte => w32::sext8(value),
        Size::Word => w32::sext16(value),
        Size::Long => value,
    }
}

impl Computed {
    /// A result whose own sign and zero are N and Z.
    pub(crate) fn of(size: Size, value: u32, carry: bool) -> Computed
        ensures { result ≡ valued size value carry }
    {
        Computed {
            value,
            conditions: Conditions {
                negative: is_negative_at(size, value),
                is_zero: value == 0,
                carry,
            },
        }
    }

    fn only(negative: bool, is_zero: bool, carry: bool) -> Computed
        ensures { result ≡ only_conditions negative is_zero carry }
    {
        Computed {
            value: 0,
            conditions: Conditions {
                negative,
                is_zero,
                carry,
            },
        }
    }
}

impl Function {
    /// What is computed of the first operand `a`, the second operand `b` and C as it was; None where a divisor is zero.
    pub(crate) fn apply(self, a: u32, b: u32, carry: bool) -> Option<Computed>
        ensures { result ≡ applied self a b carry }
    {
        match self {
            Function::Copy(size) => Some(Computed::of(size, a, carry)),
            Function::Clear => Some(Computed::of(Size::Long, 0, carry)),
            Function::Negate => Some(Computed::of(Size::Long, w32::neg(a), w32::neg(a) != 0)),
            Function::Complement => Some(Computed::of(Size::Long, w32::com(a), carry)),
            Function::SignExtend(size) => Some(Computed::of(Size::Long, extended(size, a), false)),
            Function::Truncate(size) => Some(Computed::of(size, low(size, a), false)),
            Function::Add => Some(Computed::of(Size::Long, w32::add(a, b), carries(a, b))),
            Function::Subtract => Some(Computed::of(Size::Long, w32::sub(b, a), b < a)),
            Function::Multiply => Some(Computed::of(Size::Long, w32::mul(a, b), false)),
            Function::Divide => quotient(w32::div(b, a)),
            Function::Increment => Some(Computed::of(Size::Long, w32::add(a, 1), carries(a, 1))),
            Function::Decrement => Some(Computed::of(Size::Long, w32::sub(a, 1), a == 0)),
            Function::BitSet => Some(Computed::of(Size::Long, w32::or(a, b), carry)),
            Function::BitClear => Some(Computed::of(Size::Long, w32::and(b, w32::com(a)), carry)),
            Function::ExclusiveOr => Some(Computed::of(Size::Long, w32::xor(a, b), carry)),
            Function::BitTest => Some(Computed::of(Size::Long, w32::and(a, b), carry)),
            Function::Shift => Some(Computed::of(Size::Long, w32::ash(a, b), false)),
            Function::Compare(size) => {
                let less = Rel::Lt.holds(extended(size, a), extended(size, b));
                Some(Computed::only(less, a == b, a < b))
            }
            Function::CompareWithZero(size) => {
                Some(Computed::only(is_negative_at(size, a), a == 0, false))
            }
        }
    }
}

// Whether a sum leaves 32 bits.
fn carries(a: u32, b: u32) -> bool
    ensures { result ≡ nat_le (2 ^ 32) (a + b) }
{
    a as u64 + b as u64 >= 1 << 32
}

fn quotient(value: Option<u32>) -> Option<Computed>
    ensures { result ≡ quotient value }
{
    match value {
        Some(value) => Some(Computed::of(Size::Long, value, false)),
        None => None,
    }
}

impl Test {
    /// Whether a branch with this test is taken.
    pub fn passes(self, c: Conditions) -> bool
        ensures { result ≡ passes self c }
    {
        match self {
            Test::Always => true,
            Test::Equal => c.is_zero,
            Test::NotEqual => !c.is_zero,
            Test::Less => c.negative,
            Test::LessOrEqual => c.negative || c.is_zero,
            Test::Greater => !(c.negative || c.is_zero),
            Test::GreaterOrEqual => !c.negative,
            Test::LessUnsigned => c.carry,
            Test::LessOrEqualUnsigned => c.carry || c.is_zero,
            Test::GreaterUnsigned => !(c.carry || c.is_zero),
            Test::GreaterOrEqualUnsigned => !c.carry,
        }
    }
}
