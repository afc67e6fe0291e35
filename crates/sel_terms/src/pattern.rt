// The effect of a rule's pattern.

ghost use Rattle.std.specs.Prelude.{◌≡◌, ◌≤◌, length, IfOk, OnOk};
ghost use Rattle.sel_terms.specs.Effects.{act_of, effect_of};
ghost use Rattle.sel_terms.specs.Parts.{part_of, subtree_of};
ghost use Rattle.sel_terms.specs.Stack.{contents};
ghost use Rattle.sel_terms.specs.Wanted.{one, two, whole, IsWanted};
ghost use Rattle.sel_terms.specs.Reading.{step, stack_from, effect_read};

use crate::effect::{Act, Effect};
use crate::part::{Part, Subtree, add_divisor, leaf_part, one_part, two_part, value_of};
use crate::role::{OneRole, Role, TwoRole, role_of};
use crate::stack::Stack;
use gg_base::NoMemory;
use md_reader::{Class, Kind, Rule, Sym, kind_at};
use std::alloc::Global;

fn one(alloc: Global, role: OneRole, kid: Subtree) -> Result<Subtree, NoMemory>
    ensures { IfOk result (λ s. subtree_of s ≡ one role (subtree_of kid)) }
{
    let Subtree { part, divisors } = kid;
    let t = value_of(alloc, part)?;
    let part = one_part(alloc, role, t)?;
    Ok(Subtree { part, divisors })
}

fn two(
    alloc: Global,
    i: u8,
    role: TwoRole,
    left: Subtree,
    right: Subtree,
) -> Result<Subtree, NoMemory>
    ensures { IfOk result (λ s. subtree_of s ≡ two i role (subtree_of left) (subtree_of right)) }
{
    let Subtree {
        part: left,
        mut divisors,
    } = left;
    let Subtree {
        part: right,
        divisors: mut later,
    } = right;
    divisors.append(&mut later)?;
    let b = value_of(alloc, right)?;
    add_divisor(alloc, &mut divisors, role, &b)?;
    let part = two_part(alloc, i, role, left, b)?;
    Ok(Subtree { part, divisors })
}

// Reads the symbol with this number.
fn step(alloc: Global, i: u8, role: Role, stack: &mut Stack) -> Result<(), NoMemory>
    ensures { OnOk result (contents stack.new ≡ step i role (contents stack.old)) }
{
    let made = match role {
        Role::Leaf(role) => Subtree {
            part: leaf_part(i, role),
            divisors: Vec::new(alloc),
        },
        Role::One(role) => one(alloc, role, stack.take(alloc))?,
        Role::Two(role) => {
            let left = stack.take(alloc);
            two(alloc, i, role, left, stack.take(alloc))?
        }
    };
    stack.put(made)
}

// What lies on the stack when the symbols are read from the last to the first.
fn stack_of(alloc: Global, classes: &[Class], right: &[Sym]) -> Result<Stack, NoMemory>
    requires { length right.now ≤ 16 }
    ensures { IfOk result (λ s. contents s ≡ stack_from classes.now 1 right.now) }
{
    let mut stack = Stack::new(alloc);
    for (index, symbol) in right.iter().enumerate().rev() {
        let role = role_of(classes, *symbol);
        step(alloc, index as u8 + 1, role, &mut stack)?;
    }
    Ok(stack)
}

fn whole(alloc: Global, kind: Option<Kind>, part: Part) -> Result<Act, NoMemory>
    ensures { IfOk result (λ a. act_of a ≡ whole kind (part_of part)) }
{
    Ok(match (kind, part) {
        (Some(Kind::Con), part) => Act::Number(value_of(alloc, part)?),
        (Some(Kind::Ea), part) => Act::Address(value_of(alloc, part)?),
        (Some(Kind::Place(_)), Part::Home(size, i)) => Act::PlaceHome(size, i),
        (Some(Kind::Place(_)), Part::At(size, a)) => Act::PlaceAt(size, a),
        (Some(Kind::Nothing), Part::Does(act)) => act,
        (_, part) => Act::Value(value_of(alloc, part)?),
    })
}

fn effect_read(alloc: Global, rule: &Rule, classes: &[Class]) -> Result<Effect, NoMemory>
    requires { length rule.now.right ≤ 16 }
    ensures { IfOk result (λ e. effect_of e ≡ effect_read classes.now rule.now) }
{
    let mut stack = stack_of(alloc, classes, rule.right.as_slice())?;
    let Subtree { part, divisors } = stack.take(alloc);
    let act = whole(alloc, kind_at(classes, rule.left), part)?;
    Ok(Effect { act, divisors })
}

/// What the pattern of a rule with these classes does. The right side of a valid rule is a tree, and the effect is the tree's.
pub fn pattern_effect(alloc: Global, rule: &Rule, classes: &[Class]) -> Result<Effect, NoMemory>
    requires { length rule.now.right ≤ 16 }
    ensures wanted { IfOk result (λ e. IsWanted classes.now rule.now (effect_of e)) }
    ensures read { IfOk result (λ e. effect_of e ≡ effect_read classes.now rule.now) }
{
    effect_read(alloc, rule, classes)
}
