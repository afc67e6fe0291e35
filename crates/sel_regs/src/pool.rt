// The registers of a pool, and who holds them.

ghost use Rattle.std.specs.Prelude.{◌≡◌, ℕ, ◌<◌, ◌≤◌, ◌/◌, ◌%◌, ◌^◌, List, length, Some, None, IsTrue, ◌↔◌, nat_eq, slice_get};
ghost use Rattle.std.specs.Prelude.{slice_set, IfSome};
ghost use Rattle.sel_regs.specs.declared.pool.Register.{Register};
ghost use Rattle.sel_regs.specs.Pool.{bit, start_of, IsOldest, older_of};

use std::array;
use std::marker::Model;

/// A register: outside the pool, free, or taken by a holder.
#[derive(Clone, Copy, PartialEq, Eq)]
pub enum Register {
    Outside,
    Free,
    Taken(u32),
}

/// Sixteen registers, of which some may be taken.
#[derive(Drop)]
pub struct Pool {
    registers: [Register; 16],
}

impl Model for Pool {
    ghost Value = { List Register };

    ghost view = { λ p. p.registers };

    ghost invariant = { λ p. length p.registers ≡ 16 };
}

impl Pool {
    /// The registers of the set are free.
    pub fn new(registers: u16) -> Pool
        ensures long { length result ≡ 16 }
        ensures each { (r : ℕ) → r < 16 → slice_get result r ≡ Some (start_of registers r) }
    {
        Pool {
            registers: array::from_fn(|r| start(registers, r as u8)),
        }
    }

    /// Takes the lowest free register.
    pub fn take(&mut self, holder: u32) -> Option<u8>
        ensures none { result ≡ None → (r : ℕ) → slice_get self.old r ≡ Some Register.Free → ⊥ }
        ensures kept { result ≡ None → self.new ≡ self.old }
        ensures free { IfSome result (λ r. slice_get self.old r ≡ Some Register.Free) }
        ensures lowest { IfSome result (λ r. (q : ℕ) → q < r → slice_get self.old q ≡ Some Register.Free → ⊥) }
        ensures taken { IfSome result (λ r. self.new ≡ slice_set self.old r (Register.Taken holder)) }
    {
        let found = lowest(&self.registers);
        if let Some(r) = found {
            self.registers[r as usize] = Register::Taken(holder);
        }
        found
    }

    /// Gives a taken register back.
    pub fn give(&mut self, register: u8)
        requires { (h : ℕ) × (slice_get self.old register ≡ Some (Register.Taken h)) }
        ensures { self.new ≡ slice_set self.old register Register.Free }
    {
        self.registers[register as usize] = Register::Free;
    }

    /// Passes a taken register to another holder.
    pub fn pass(&mut self, register: u8, holder: u32)
        requires { (h : ℕ) × (slice_get self.old register ≡ Some (Register.Taken h)) }
        ensures { self.new ≡ slice_set self.old register (Register.Taken holder) }
    {
        self.registers[register as usize] = Register::Taken(holder);
    }

    /// Who holds a register.
    pub fn holder(&self, register: u8) -> Option<u32>
        ensures some { IfSome result (λ h. slice_get self.now register ≡ Some (Register.Taken h)) }
        ensures none { result ≡ None → (h : ℕ) → slice_get self.now register ≡ Some (Register.Taken h) → ⊥ }
    {
        match self.registers.get(register as usize) {
            Some(Register::Taken(h)) => Some(*h),
            _ => None,
        }
    }

    /// The taken register outside the set whose holder is the least, and the lowest of several such.
    pub fn oldest(&self, keep: u16) -> Option<u8>
        ensures some { IfSome result (λ r. (h : ℕ) × IsOldest self.now keep r h) }
        ensures none { result ≡ None → (r h : ℕ) → slice_get self.now r ≡ Some (Register.Taken h) → bit keep r ≡ 0 → ⊥ }
    {
        let mut best: Option<(u8, u32)> = None;
        for r in 0..16u8 {
            best = older(best, r, self.registers[r as usize], is_in(keep, r));
        }
        match best {
            Some((r, _)) => Some(r),
            None => None,
        }
    }
}

// What a register is in a new pool.
fn start(registers: u16, r: u8) -> Register
    requires { r < 16 }
    ensures { result ≡ start_of registers r }
{
    if is_in(registers, r) {
        Register::Free
    } else {
        Register::Outside
    }
}

// The older of the best so far and the next register.
fn older(best: Option<(u8, u32)>, r: u8, register: Register, kept: bool) -> Option<(u8, u32)>
    ensures { result ≡ older_of best r register kept }
{
    let Register::Taken(h) = register else {
        return best;
    };
    if kept {
        return best;
    }
    match best {
        Some((q, least)) => {
            if least <= h {
                Some((q, least))
            } else {
                Some((r, h))
            }
        }
        None => Some((r, h)),
    }
}

// The lowest register that is free.
fn lowest(registers: &[Register; 16]) -> Option<u8>
    ensures none { result ≡ None → (r : ℕ) → slice_get registers.now r ≡ Some Register.Free → ⊥ }
    ensures free { IfSome result (λ r. slice_get registers.now r ≡ Some Register.Free) }
    ensures lowest { IfSome result (λ r. (q : ℕ) → q < r → slice_get registers.now q ≡ Some Register.Free → ⊥) }
{
    (0..16u8).find(|r| is_free_at(registers, *r))
}

fn is_free(register: Register) -> bool
    ensures { IsTrue result ↔ (register ≡ Register.Free) }
{
    matches!(register, Register::Free)
}

fn is_free_at(registers: &[Register; 16], r: u8) -> bool
    requires { r < 16 }
    ensures { IsTrue result ↔ (slice_get registers.now r ≡ Some Register.Free) }
{
    is_free(registers[r as usize])
}

// Whether a register is in a set.
fn is_in(set: u16, r: u8) -> bool
    requires { r < 16 }
    ensures { result ≡ nat_eq (bit set r) 1 }
{
    (set >> r) % 2 == 1
}
