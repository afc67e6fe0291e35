// The objects of the data area, while they are laid out.
ghost use Rattle.std.specs.Prelude.{◌≡◌, ◌++◌, ◌∷◌, [], ◌<◌, ◌≤◌, ◌+◌, IfOk, OnOk, length};
ghost use Rattle.std.specs.Fmt.{decimal};
ghost use Rattle.c_types.specs.Typed.{expression_of};
ghost use Rattle.c_typed_scope.specs.Layout.{aligned, placed, literal};
ghost use Rattle.c_typed_scope.specs.Views.{area};
ghost use Rattle.c_typed_scope.specs.Answers.{Turns};

use c_types::{Expression, TypeFault, TypeKind};
use gg_base::limits::{AREA_LIMIT, AREA_START};
use gg_base::{Bytes, Name};
use std::alloc::{AllocError, Global};
use tree_core::spelling::function_label;
use tree_core::{Links, Object};

/// The objects so far, the end of the last, and how many literals and static locals have one. While a length is
/// measured, literals take no room.
#[derive(Drop)]
pub struct Data {
    pub objects: Vec<Object>,
    pub end: u32,
    pub literals: u32,
    pub statics: u32,
    pub measuring: bool,
}

#[tactic(auto, unfolding(crate::specs::Layout::aligned))]
fn aligned(end: u32, align: u32) -> u64
    requires { (1 ≤ align) × (align ≤ 4) }
    ensures aligned { result ≡ aligned end align }
    ensures near { result ≤ end + 3 }
{
    (u64::from(end) + (u64::from(align) - 1)) / u64::from(align) * u64::from(align)
}

/// Lays an object behind the others, at the next multiple of `align`, and answers its number. DataFull, at this place,
/// where its end lies more than `AREA_LIMIT` bytes past address `AREA_START`.
#[tactic(auto, unfolding(crate::specs::Layout::placed))]
pub fn lay(
    alloc: Global,
    layout: &mut Data,
    at: u32,
    label: Name,
    align: u32,
    size: u32,
    bytes: Bytes,
) -> Result<u32, TypeFault>
    requires { (1 ≤ align) × (align ≤ 4) }
    ensures { Turns (λ n. n) result (area layout.new) (placed at label align size bytes (area layout.old)) }
{
    let address = aligned(layout.end, align);
    let end = address + u64::from(size);
    if end > u64::from(AREA_START) + u64::from(AREA_LIMIT) {
        return Err(TypeFault::At {
            place: at,
            kind: TypeKind::DataFull,
        });
    }
    let number = layout.objects.len();
    if number > 0xffff_ffff {
        return Err(TypeFault::NoMemory);
    }
    add(
        layout,
        Object {
            label,
            address: address as u32,
            size,
            align,
            bytes,
            links: Links::from_vec(Vec::new(alloc)),
        },
        end as u32,
    )?;
    Ok(number as u32)
}

fn add(layout: &mut Data, object: Object, end: u32) -> Result<(), AllocError>
    ensures { OnOk result (area layout.new ≡ added object end (area layout.old)) }
{
    layout.objects.push(object)?;
    layout.end = end;
    Ok(())
}

ghost use Rattle.c_typed_scope.specs.Layout.{added};

fn literal_label(alloc: Global, number: u32) -> Result<Name, AllocError>
    ensures { IfOk result (λ n. n ≡ 83 ∷ decimal number) }
{
    let text = format!(in alloc; "S{number}")?;
    Ok(Name::from_vec(text.into_bytes()))
}

fn closed(alloc: Global, bytes: &Bytes) -> Result<Bytes, AllocError>
    ensures { IfOk result (λ b. b ≡ bytes.now ++ 0 ∷ []) }
{
    let mut closed = Vec::from_slice(alloc, bytes.as_slice())?;
    closed.push(0)?;
    Ok(Bytes::from_vec(closed))
}

/// The object of a string literal, with a byte for each character and a closing zero.
#[tactic(auto, unfolding(crate::specs::Layout::literal))]
pub fn literal(
    alloc: Global,
    layout: &mut Data,
    at: u32,
    bytes: &Bytes,
) -> Result<Expression, TypeFault>
    ensures { Turns (λ t. expression_of t) result (area layout.new) (literal at bytes.now (area layout.old)) }
{
    let len = bytes.as_slice().len();
    if len >= 0xffff_ffff {
        return Err(TypeFault::NoMemory);
    }
    let size = len as u32 + 1;
    if layout.measuring {
        return Ok(Expression::Literal(0, size));
    }
    let count = layout.literals;
    if count == u32::MAX {
        return Err(TypeFault::NoMemory);
    }
    let label = literal_label(alloc, count)?;
    let closed = closed(alloc, bytes)?;
    let number = lay(alloc, layout, at, label, 1, size, closed)?;
    layout.literals = count + 1;
    Ok(Expression::Literal(number, size))
}

/// The label of a static local, by its number.
pub fn static_label(alloc: Global, number: u32) -> Result<Name, AllocError>
    ensures { IfOk result (λ n. n ≡ 84 ∷ decimal number) }
{
    let text = format!(in alloc; "T{number}")?;
    Ok(Name::from_vec(text.into_bytes()))
}

/// The label of a variable at file level: an underscore and its name, as a function's.
pub fn variable_label(alloc: Global, name: &Name) -> Result<Name, AllocError>
    ensures { IfOk result (λ n. n ≡ 95 ∷ name.now) }
{
    function_label(alloc, name)
}
