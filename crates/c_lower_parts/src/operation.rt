// Operators over values that are due.
ghost use Rattle.std.specs.Prelude.{◌≡◌, IfOk};
ghost use Rattle.c_lower_scheme.specs.Trees.{Neg, Com, Bin};
ghost use Rattle.c_lower_scheme.specs.Parts as parts;
ghost use Rattle.c_lower_scheme.specs.Places as places;
ghost use Rattle.c_lower_scheme.specs.Values as values;
ghost use Rattle.c_lower_parts.specs.Views.{low, two};

use crate::part::{Lowered, Pair};
use crate::tree::{
    Tree, advance, advance_by, apart, binary, complemented, fitted, negated, retreat,
};
use c_types::{ArithmeticOperator, CType};
use gg_base::NoMemory;
use std::alloc::Global;

/// The value with the opposite sign.
pub fn negated_low(alloc: Global, p: Lowered) -> Result<Lowered, NoMemory>
    ensures { IfOk result (λ r. low r ≡ parts.over Neg (low p)) }
{
    let tree = negated(alloc, p.tree)?;
    Ok(Lowered {
        items: p.items,
        tree,
        free: p.free,
    })
}

/// The value with all bits turned.
pub fn complemented_low(alloc: Global, p: Lowered) -> Result<Lowered, NoMemory>
    ensures { IfOk result (λ r. low r ≡ parts.over Com (low p)) }
{
    let tree = complemented(alloc, p.tree)?;
    Ok(Lowered {
        items: p.items,
        tree,
        free: p.free,
    })
}

/// The value that is converted to a type.
pub fn fitted_low(alloc: Global, t: CType, p: Lowered) -> Result<Lowered, NoMemory>
    ensures { IfOk result (λ r. low r ≡ parts.over (places.fitted t) (low p)) }
{
    let tree = fitted(alloc, t, p.tree)?;
    Ok(Lowered {
        items: p.items,
        tree,
        free: p.free,
    })
}

/// An operator on two numbers.
pub fn arithmetic_low(alloc: Global, op: ArithmeticOperator, p: Pair) -> Result<Lowered, NoMemory>
    ensures { IfOk result (λ r. low r ≡ parts.over_two (Bin op) (two p)) }
{
    let tree = binary(alloc, op, p.first, p.second)?;
    Ok(Lowered {
        items: p.items,
        tree,
        free: p.free,
    })
}

/// A pointer of the type plus a number.
pub fn advance_low(alloc: Global, t: CType, p: Pair) -> Result<Lowered, NoMemory>
    ensures { IfOk result (λ r. low r ≡ parts.over_two (values.advance t) (two p)) }
{
    let tree = advance(alloc, t, p.first, p.second)?;
    Ok(Lowered {
        items: p.items,
        tree,
        free: p.free,
    })
}

/// A number plus a pointer of the type.
pub fn advance_by_low(alloc: Global, t: CType, p: Pair) -> Result<Lowered, NoMemory>
    ensures { IfOk result (λ r. low r ≡ parts.over_two (values.advance_by t) (two p)) }
{
    let tree = advance_by(alloc, t, p.first, p.second)?;
    Ok(Lowered {
        items: p.items,
        tree,
        free: p.free,
    })
}

/// A pointer of the type less a number.
pub fn retreat_low(alloc: Global, t: CType, p: Pair) -> Result<Lowered, NoMemory>
    ensures { IfOk result (λ r. low r ≡ parts.over_two (values.retreat t) (two p)) }
{
    let tree = retreat(alloc, t, p.first, p.second)?;
    Ok(Lowered {
        items: p.items,
        tree,
        free: p.free,
    })
}

/// How many elements lie between two pointers of the type.
pub fn apart_low(alloc: Global, t: CType, p: Pair) -> Result<Lowered, NoMemory>
    ensures { IfOk result (λ r. low r ≡ parts.over_two (values.apart t) (two p)) }
{
    let tree = apart(alloc, t, p.first, p.second)?;
    Ok(Lowered {
        items: p.items,
        tree,
        free: p.free,
    })
}
