// Rows of the subject `templates`: a description of the VAX. A line is written for each of the lines that save and reload, as rule 0, and
// for each rule: the effect that its pattern and its template have, or the fault in the template, or both effects.
use crate::effects::put_effect;
use crate::found::description_of;
use gg_base::{NoMemory, Size};
use md_reader::{Class, Description, Kind, Line, Rule};
use sel_target::TargetFault;
use sel_terms::{
    Act, Effect, Term, norm_effect, pattern_effect, rule_facts, same_effect, saved_facts,
};
use std::alloc::Global;
use term_core::Fact;
use vax_target::found::{found, saved_found};

// The lines that save and reload, in their order.
const SAVED: [Kind; 8] = [
    Kind::Value(Size::Byte),
    Kind::Value(Size::Word),
    Kind::Value(Size::Long),
    Kind::Place(Size::Byte),
    Kind::Place(Size::Word),
    Kind::Place(Size::Long),
    Kind::Ea,
    Kind::Reg,
];

// Adds the effect that is found, behind the one that is wanted where that is another.
fn put_forms(
    alloc: Global,
    wanted: &Effect,
    found: &Effect,
    told: &mut String,
) -> Result<(), NoMemory> {
    told.push_str(": ")?;
    if !same_effect(alloc, wanted, found)? {
        put_effect(alloc, told, wanted)?;
        told.push_str(", but found ")?;
    }
    put_effect(alloc, told, found)?;
    told.push('\n')?;
    Ok(())
}

fn put_normal_forms(
    alloc: Global,
    facts: &[Fact],
    wanted: &Effect,
    found: &Effect,
    told: &mut String,
) -> Result<(), NoMemory> {
    let wanted = norm_effect(alloc, facts, wanted)?;
    let found = norm_effect(alloc, facts, found)?;
    put_forms(alloc, &wanted, &found, told)
}

fn put_fault(fault: TargetFault, told: &mut String) -> Result<(), NoMemory> {
    match fault {
        TargetFault::At { line, kind } => Ok(writeln!(told, " line {line}: {kind:?}")?),
        TargetFault::NoMemory => Err(NoMemory),
    }
}

// Adds the effect that is wanted and found, or both, or the fault.
fn put_judgement(
    alloc: Global,
    facts: &[Fact],
    wanted: &Effect,
    found: Result<Effect, TargetFault>,
    told: &mut String,
) -> Result<(), NoMemory> {
    match found {
        Ok(found) => put_normal_forms(alloc, facts, wanted, &found, told),
        Err(fault) => put_fault(fault, told),
    }
}

// What is wanted of a line that saves what is of this kind, or that reloads.
fn wanted_of(alloc: Global, kind: Kind) -> Effect {
    let value = Term::V(1);
    let act = match kind {
        Kind::Reg => Act::Value(value),
        Kind::Value(size) => Act::StoreHome(size, 0, value),
        Kind::Place(_) | Kind::Con | Kind::Ea | Kind::Nothing => {
            Act::StoreHome(Size::Long, 0, value)
        }
    };
    Effect {
        act,
        divisors: Vec::new(alloc),
    }
}

fn answer_saved(alloc: Global, kind: Kind, line: &Line, told: &mut String) -> Result<(), NoMemory> {
    told.push_str("rule 0")?;
    let wanted = wanted_of(alloc, kind);
    let found = saved_found(alloc, kind, line);
    put_judgement(alloc, &saved_facts(kind), &wanted, found, told)
}

fn answer_rule(
    alloc: Global,
    number: usize,
    rule: &Rule,
    classes: &[Class],
    told: &mut String,
) -> Result<(), NoMemory> {
    write!(told, "rule {number}")?;
    if 16 < rule.right.as_slice().len() {
        told.push_str(": too long\n")?;
        return Ok(());
    }
    let facts = rule_facts(alloc, rule, classes)?;
    let wanted = pattern_effect(alloc, rule, classes)?;
    let found = found(alloc, rule, classes);
    put_judgement(alloc, &facts, &wanted, found, told)
}

fn answer_lines(
    alloc: Global,
    description: &Description,
    told: &mut String,
) -> Result<(), NoMemory> {
    for (line, kind) in description.spills().iter().zip(SAVED) {
        answer_saved(alloc, kind, line, told)?;
    }
    let mut number: usize = 0;
    for rule in description.rules() {
        number = number.saturating_add(1);
        answer_rule(alloc, number, rule, description.classes(), told)?;
    }
    Ok(())
}

/// Adds a line for each line that saves or reloads, and for each rule.
pub fn answer_templates(alloc: Global, rows: &str, told: &mut String) -> Result<(), NoMemory> {
    match description_of(alloc, rows, told)? {
        Some(description) => answer_lines(alloc, &description, told),
        None => Ok(()),
    }
}
