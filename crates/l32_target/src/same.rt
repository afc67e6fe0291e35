// When two operands are spelled alike.
ghost use Rattle.std.specs.Prelude.{◌≡◌};
ghost use Rattle.std.specs.Option.{option_copied};
ghost use Rattle.vax_core.specs.Same.{same_name};
ghost use Rattle.l32_templates.specs.Spelled.{same_base, same_addr, is_number, is_register, is_at, is_deferred, is_addr, same_operand};

use l32_core::{Base32, Operand32};
use vax_core::Addr;

fn same_label(a: Option<&[u8]>, b: Option<&[u8]>) -> bool
    ensures { result ≡ same_name (option_copied a.entry) (option_copied b.entry) }
{
    match (a, b) {
        (None, None) => true,
        (Some(a), Some(b)) => a == b,
        (None, Some(_)) | (Some(_), None) => false,
    }
}

fn same_addr(a: &Addr, b: &Addr) -> bool
    ensures { result ≡ same_addr a.now b.now }
{
    same_label(a.label(), b.label()) && a.offset == b.offset
}

fn same_base(a: Base32, b: Base32) -> bool
    ensures { result ≡ same_base a b }
{
    match (a, b) {
        (Base32::A(n), Base32::A(k)) => n == k,
        (Base32::Fp, Base32::Fp) => true,
        (Base32::Sp, Base32::Sp) => true,
        _ => false,
    }
}

fn is_number(n: u32, operand: &Operand32) -> bool
    ensures { result ≡ is_number n operand.now }
{
    match operand {
        Operand32::Num(k) => n == *k,
        _ => false,
    }
}

fn is_register(n: u8, operand: &Operand32) -> bool
    ensures { result ≡ is_register n operand.now }
{
    match operand {
        Operand32::Reg(k) => n == *k,
        _ => false,
    }
}

fn is_at(n: u32, base: Base32, operand: &Operand32) -> bool
    ensures { result ≡ is_at n base operand.now }
{
    match operand {
        Operand32::At(k, other) => n == *k && same_base(base, *other),
        _ => false,
    }
}

fn is_deferred(n: u32, base: Base32, operand: &Operand32) -> bool
    ensures { result ≡ is_deferred n base operand.now }
{
    match operand {
        Operand32::Deferred(k, other) => n == *k && same_base(base, *other),
        _ => false,
    }
}

fn is_addr(a: &Addr, operand: &Operand32) -> bool
    ensures { result ≡ is_addr a.now operand.now }
{
    match operand {
        Operand32::Addr(b) => same_addr(a, b),
        _ => false,
    }
}

/// Whether two operands are spelled alike.
pub fn same(a: &Operand32, b: &Operand32) -> bool
    ensures { result ≡ same_operand a.now b.now }
{
    match a {
        Operand32::Num(n) => is_number(*n, b),
        Operand32::Reg(n) => is_register(*n, b),
        Operand32::At(n, base) => is_at(*n, *base, b),
        Operand32::Deferred(n, base) => is_deferred(*n, *base, b),
        Operand32::Addr(a) => is_addr(a, b),
    }
}
