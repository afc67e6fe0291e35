// How many registers a rule needs.

ghost use Rattle.std.specs.Prelude.{◌≡◌, ◌≤◌, length};
ghost use Rattle.sel_regs.specs.Need.{need, is_register, registers_among};

use md_reader::{Class, Give, Kind, Rule, Sym};

/// How many registers of the pool a rule with these classes needs at once: one for each symbol of kind Reg of its right side, however
/// often the template spells it, and one more for a fresh result or a scratch register. A result that reuses an operand's needs one.
pub fn need(rule: &Rule, classes: &[Class]) -> u32
    requires { length rule.now.right ≤ 16 }
    ensures { result ≡ need classes.now rule.now }
{
    let held = registers_among(classes, rule.right.as_slice());
    match &rule.give {
        Give::Fresh | Give::Scratch => held + 1,
        Give::Reuse => { if held < 1 { 1 } else { held } }
        Give::Nothing | Give::Shape(_) => held,
    }
}

fn registers_among(classes: &[Class], right: &[Sym]) -> u32
    requires { length right.now ≤ 16 }
    ensures count { result ≡ registers_among classes.now right.now }
    ensures few { result ≤ length right.now }
{
    match right.split_first() {
        Some((symbol, others)) => {
            let held = registers_among(classes, others);
            if is_register(classes, *symbol) {
                held + 1
            } else {
                held
            }
        }
        None => 0,
    }
}

fn is_register(classes: &[Class], symbol: Sym) -> bool
    ensures { result ≡ is_register classes.now symbol }
{
    match symbol {
        Sym::Tok(_) => false,
        Sym::Class(class) => match classes.get(class as usize) {
            Some(class) => matches!(class.kind, Kind::Reg),
            None => false,
        },
    }
}
