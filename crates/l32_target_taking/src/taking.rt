// What an instruction takes of its operands, on terms, by what it does with each.
ghost use Rattle.std.specs.Prelude.{◌≡◌, IfOk, Ok};
ghost use Rattle.vax_target_taking.specs.Answers.{Judges};
ghost use Rattle.vax_target_taking.specs.Views.{where_of, term_of, taken_of, arguments_of, aimed};
ghost use Rattle.l32_templates.specs.Taking.{numbered, registered, sourced, addressed, own_register, register_target};
ghost use Rattle.l32_templates.specs.Taking.{slot_target, statement_store, store_target, taken, evaluated};
ghost use Rattle.l32_templates.specs.Taking.{put_in_front, all_evaluated};

use crate::standing::form_where;
use gg_base::{NoMemory, Size};
use l32_core::{Part, Role};
use l32_templates::Form;
use sel_terms::same_size;
use std::alloc::Global;
use term_core::Term;
use vax_target_forms::refusal::{NOT_INSTR, Refusal};
use vax_target_taking::heap::boxed;
use vax_target_taking::standing::{Location, Template};
use vax_target_taking::taking::{
    Destination, Operand, Operands, is_long, memory_target, no_arguments, pointer_read, taken_term,
    written, zero_target,
};
use vax_templates::{Own, Setting};

fn numbered(alloc: Global, location: Location) -> Result<Operand, Refusal>
    ensures { Judges taken_of result (numbered (where_of location)) }
{
    match location {
        Location::Number(t) => Ok(taken_term(alloc, t)),
        _ => Err(NOT_INSTR),
    }
}

fn registered(
    template: Template<'_>,
    zero: &Option<Box<Term>>,
    location: &Location,
) -> Result<Operand, Refusal>
    ensures { Judges taken_of result (registered template.entry.setting (term_of zero.now) (where_of location.now)) }
{
    match location {
        Location::Register(_) => template.fetched(zero, location, Size::Long),
        Location::Own => template.fetched(zero, location, Size::Long),
        Location::RegisterZero => template.fetched(zero, location, Size::Long),
        _ => Err(NOT_INSTR),
    }
}

/// What is read of a register or of memory at this size; a number is neither.
pub fn sourced(
    template: Template<'_>,
    zero: &Option<Box<Term>>,
    location: &Location,
    size: Size,
) -> Result<Operand, Refusal>
    ensures { Judges taken_of result (sourced template.entry.setting (term_of zero.now) (where_of location.now) size) }
{
    match location {
        Location::Number(_) => Err(NOT_INSTR),
        _ => template.fetched(zero, location, size),
    }
}

// The address that is taken.
fn addressed(alloc: Global, location: Location) -> Result<Operand, Refusal>
    ensures { Judges taken_of result (addressed (where_of location)) }
{
    match location {
        Location::At(term, pointer) => Ok(Operand {
            term,
            reads: pointer_read(alloc, pointer)?,
            destination: None,
            is_missized: false,
        }),
        Location::SavedPlace(_, i) => Ok(taken_term(alloc, boxed(alloc, Term::V(i))?)),
        _ => Err(NOT_INSTR),
    }
}

fn own_register(own: Own) -> Result<(Destination, bool), Refusal>
    ensures { Judges aimed result (own_register own) }
{
    match own {
        Own::Register => Ok((Destination::Own, false)),
        Own::Slot(_) | Own::Nothing => Err(NOT_INSTR),
    }
}

// The register that is written.
fn register_target(setting: Setting, location: &Location) -> Result<(Destination, bool), Refusal>
    ensures { Judges aimed result (register_target setting (where_of location.now)) }
{
    match location {
        Location::Own => own_register(setting.own),
        Location::RegisterZero if setting.is_statement => zero_target(setting.opening),
        _ => Err(NOT_INSTR),
    }
}

fn slot_target(own: Own, size: Size) -> Result<(Destination, bool), Refusal>
    ensures { Judges aimed result (slot_target own size) }
{
    match own {
        Own::Slot(has) => Ok((Destination::Slot(size), !same_size(has, size))),
        Own::Register | Own::Nothing => Err(NOT_INSTR),
    }
}

// The memory that is written in a statement, and whether it has another size.
fn statement_store(own: Own, location: Location, size: Size) -> Result<(Destination, bool), Refusal>
    ensures { Judges aimed result (statement_store own (where_of location) size) }
{
    match location {
        Location::Own => slot_target(own, size),
        Location::Place(has, i) => Ok((Destination::Home(size, i), !same_size(has, size))),
        Location::Local(i) => Ok((Destination::Home(size, i), !is_long(size))),
        Location::Saved(i) => Ok((Destination::Saved(i), false)),
        Location::At(a, _) => memory_target(own, a, size),
        _ => Err(NOT_INSTR),
    }
}

// Only a statement writes memory.
fn store_target(
    setting: Setting,
    location: Location,
    size: Size,
) -> Result<(Destination, bool), Refusal>
    ensures { Judges aimed result (store_target setting (where_of location) size) }
{
    if setting.is_statement {
        statement_store(setting.own, location, size)
    } else {
        Err(NOT_INSTR)
    }
}

#[tactic(auto, unfolding(l32_templates::specs::Taking::taken))]
fn taken(
    template: Template<'_>,
    zero: &Option<Box<Term>>,
    role: Role,
    location: Location,
) -> Result<Operand, Refusal>
    ensures { Judges taken_of result (taken template.entry.setting (term_of zero.now) role (where_of location)) }
{
    let alloc = template.alloc;
    let setting = template.setting;
    match role {
        Role::Number => numbered(alloc, location),
        Role::Words | Role::Count => Err(NOT_INSTR),
        Role::Destination => Ok(written(alloc, register_target(setting, &location)?)?),
        Role::Register => registered(template, zero, &location),
        Role::Source(size) => sourced(template, zero, &location, size),
        Role::Store(size) => Ok(written(alloc, store_target(setting, location, size)?)?),
        Role::Address => addressed(alloc, location),
    }
}

#[tactic(auto, unfolding(l32_templates::specs::Taking::evaluated))]
fn evaluated(
    template: Template<'_>,
    zero: &Option<Box<Term>>,
    role: Role,
    form: Form,
) -> Result<Operand, Refusal>
    ensures { Judges taken_of result (evaluated template.entry.setting template.entry.holes.now (term_of zero.now) role form) }
{
    let location = form_where(template, zero, form)?;
    taken(template, zero, role, location)
}

// The arguments with an operand in front of them; an operand that is written gives none.
fn put_in_front(taken: Operand, behind: Operands) -> Result<Operands, NoMemory>
    ensures { IfOk result (λ x. put_in_front (taken_of taken) (arguments_of behind) ≡ Ok (arguments_of x)) }
{
    let Operand {
        term,
        mut reads,
        destination,
        is_missized,
    } = taken;
    let Operands {
        first,
        second,
        reads: mut others,
        destination: last,
        is_missized: others_missized,
    } = behind;
    if let Some(destination) = destination {
        return Ok(Operands {
            first,
            second,
            reads: others,
            destination: Some(destination),
            is_missized: is_missized || others_missized,
        });
    }
    reads.append(&mut others)?;
    Ok(Operands {
        first: term,
        second: first,
        reads,
        destination: last,
        is_missized: is_missized || others_missized,
    })
}

/// What is taken of all operands; a label is none.
#[cycle(all_evaluated)]
pub fn all_evaluated(
    template: Template<'_>,
    zero: &Option<Box<Term>>,
    parts: &[Part],
    forms: &[Form],
) -> Result<Operands, Refusal>
    ensures { Judges arguments_of result (all_evaluated template.entry.setting template.entry.holes.now (term_of zero.now)
        parts.now forms.now) }
{
    let [part, parts @ ..] = parts else {
        return Ok(no_arguments(template.alloc)?);
    };
    let Part::Operand(role) = part else {
        return all_evaluated(template, zero, parts, forms);
    };
    let [form, forms @ ..] = forms else {
        return Err(NOT_INSTR);
    };
    let taken = evaluated(template, zero, *role, *form)?;
    let behind = all_evaluated(template, zero, parts, forms)?;
    Ok(put_in_front(taken, behind)?)
}
