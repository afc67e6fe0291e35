// What an instruction reads and writes besides memory.

use bitflags::Flags;
use gg_base::Size;
use vax_core::{Access, Base, Instr, Operand, OperandKind, Reg, RegSet};
use vax_machine::function::{Action, Function, Test, action_of};

/// Some of r0 to r11 and of the condition codes: N with Z, and C.
#[derive(Clone, Copy, Debug, PartialEq, Eq)]
pub struct Uses {
    pub registers: RegSet,
    pub signs: bool,
    pub carry: bool,
}

impl Uses {
    /// None.
    pub fn none() -> Uses {
        Uses::of(RegSet::empty())
    }

    /// These registers.
    pub fn of(registers: RegSet) -> Uses {
        Uses {
            registers,
            signs: false,
            carry: false,
        }
    }

    /// These and others.
    pub fn and(self, other: Uses) -> Uses {
        Uses {
            registers: self.registers.union(other.registers),
            signs: self.signs || other.signs,
            carry: self.carry || other.carry,
        }
    }

    /// These without others.
    pub fn without(self, other: Uses) -> Uses {
        Uses {
            registers: self.registers.difference(other.registers),
            signs: self.signs && !other.signs,
            carry: self.carry && !other.carry,
        }
    }

    /// Whether some of these are among others.
    pub fn meets(self, other: Uses) -> bool {
        self.registers.intersects(other.registers)
            || (self.signs && other.signs)
            || (self.carry && other.carry)
    }
}

/// What an instruction reads, and what it writes: a part that is written is read as well.
#[derive(Clone, Copy)]
pub struct Effect {
    pub reads: Uses,
    pub writes: Uses,
}

impl Effect {
    fn none() -> Effect {
        Effect {
            reads: Uses::none(),
            writes: Uses::none(),
        }
    }

    fn and(self, other: Effect) -> Effect {
        Effect {
            reads: self.reads.and(other.reads),
            writes: self.writes.and(other.writes),
        }
    }
}

// What comes of a register as an operand.
fn register_effect(kind: OperandKind, r: Reg) -> Effect {
    let own = Uses::of(r.set());
    let none = Uses::none();
    let is_whole = matches!(kind.size, Size::Long);
    let (reads, writes) = match kind.access {
        Access::Read => (own, none),
        Access::Modify => (own, own),
        Access::Write => (if is_whole { none } else { own }, own),
        Access::Address | Access::Count => (none, none),
    };
    Effect { reads, writes }
}

/// What comes of an operand.
pub fn operand_effect(kind: OperandKind, operand: &Operand) -> Effect {
    let named = Uses::of(operand.registers());
    match &operand.base {
        Base::Reg(r) => register_effect(kind, *r),
        Base::Inc(r) | Base::IncDef(r) | Base::Dec(r) => Effect {
            reads: named,
            writes: Uses::of(r.set()),
        },
        _ => Effect {
            reads: named,
            writes: Uses::none(),
        },
    }
}

fn keeps_carry(function: Function) -> bool {
    matches!(
        function,
        Function::Copy(_)
            | Function::Clear
            | Function::Complement
            | Function::BitSet
            | Function::BitClear
            | Function::ExclusiveOr
            | Function::BitTest
    )
}

// The condition codes that a test asks.
fn asked(test: Test) -> Uses {
    let (signs, carry) = match test {
        Test::Always => (false, false),
        Test::LessUnsigned | Test::GreaterOrEqualUnsigned => (false, true),
        Test::LessOrEqualUnsigned | Test::GreaterUnsigned => (true, true),
        _ => (true, false),
    };
    Uses {
        registers: RegSet::empty(),
        signs,
        carry,
    }
}

// What is written besides operands: these registers, N and Z, and C or not.
fn writes(registers: RegSet, carry: bool) -> Effect {
    Effect {
        reads: Uses::none(),
        writes: Uses {
            registers,
            signs: true,
            carry,
        },
    }
}

// What comes of an instruction besides its operands. A call keeps r2 to r11, and a return hands on r0.
fn action_effect(action: Action) -> Effect {
    match action {
        Action::Compute(function) => writes(RegSet::empty(), !keeps_carry(function)),
        Action::Push => writes(RegSet::empty(), false),
        Action::Branch(test) => Effect {
            reads: asked(test),
            writes: Uses::none(),
        },
        Action::Call => writes(RegSet::R0.union(RegSet::R1), true),
        Action::Return => Effect {
            reads: Uses::of(RegSet::R0),
            ..writes(RegSet::empty(), true)
        },
    }
}

/// What comes of an instruction.
pub fn effect_of(instr: &Instr) -> Effect {
    let mut all = action_effect(action_of(instr.op));
    for (kind, operand) in instr
        .op
        .shape()
        .operands
        .iter()
        .zip(instr.operands.as_slice())
    {
        all = all.and(operand_effect(*kind, operand));
    }
    all
}

// Whether a divisor is a number other than 0.
fn is_safe_divisor(operand: &Operand) -> bool {
    match &operand.base {
        Base::Imm(a) => a.name.is_none() && a.offset != 0,
        _ => false,
    }
}

// Whether an operand reads and writes registers alone, and can't break a run.
fn is_calm(kind: OperandKind, operand: &Operand) -> bool {
    match (&operand.base, kind.access) {
        (Base::Reg(_), Access::Read) | (Base::Imm(_), Access::Read) => true,
        (Base::Reg(r), Access::Modify | Access::Write) => r.number() < 12,
        (Base::Def(_) | Base::Disp(_, _) | Base::Abs(_) | Base::Rel(_), Access::Address) => true,
        _ => false,
    }
}

/// Whether an instruction does nothing but write r0 to r11 and condition codes.
pub fn is_calm_instr(instr: &Instr) -> bool {
    let divides = match action_of(instr.op) {
        Action::Compute(Function::Divide) => true,
        Action::Compute(_) => false,
        Action::Push | Action::Branch(_) | Action::Call | Action::Return => return false,
    };
    let operands = instr.operands.as_slice();
    if divides && !operands.first().is_some_and(is_safe_divisor) {
        return false;
    }
    instr
        .op
        .shape()
        .operands
        .iter()
        .zip(operands)
        .all(|(kind, operand)| is_calm(*kind, operand))
}
