// The rules of a description.
use desk_page::put_wrapped;
use desk_rule_lines::{line_of, put_rule};
use desk_taking::Counts;
use gg_base::NoMemory;
use md_reader::{Class, Description, Restriction, Rule};
use sel_regs::need;
use sel_target::TargetFault;
use sel_terms::{Effect, Fact, norm_effect, pattern_effect, rule_facts, show_effect};
use std::alloc::{AllocError, Global};
use vax_target::found::found;

// A restriction as it is written.
fn put_restriction(told: &mut String, restriction: Restriction) -> Result<(), AllocError> {
    match restriction {
        Restriction::Same(i, j) => write!(told, " if same {i} {j}"),
        Restriction::Range(i, low, high) => write!(told, " if range {i} {low} {high}"),
        Restriction::Signed(i) => write!(told, " if signed {i}"),
    }
}

// The first line: the rule's number from 1, its line, the rule itself and its restrictions.
fn put_head(
    alloc: Global,
    description: &Description,
    lines: &[u32],
    number: usize,
    rule: &Rule,
    told: &mut String,
) -> Result<(), NoMemory> {
    let shown = number.saturating_add(1);
    let mut head = format!(in alloc; "rule {shown}, line {}: ", line_of(lines, number))?;
    put_rule(&mut head, description, number)?;
    for restriction in rule.restrictions.as_slice() {
        put_restriction(&mut head, *restriction)?;
    }
    put_wrapped(told, &head, "      ")
}

// A line with a name and an effect in normal form.
fn put_effect(
    alloc: Global,
    name: &str,
    facts: &[Fact],
    effect: &Effect,
    told: &mut String,
) -> Result<(), NoMemory> {
    let normal = norm_effect(alloc, facts, effect)?;
    let text = show_effect(alloc, &normal)?;
    let text = String::from_utf8_lossy(alloc, text.as_slice())?;
    let line = format!(in alloc; "    {name} {text}")?;
    put_wrapped(told, &line, "             ")
}

// What the template does, or the fault in it.
fn put_template(
    alloc: Global,
    facts: &[Fact],
    rule: &Rule,
    classes: &[Class],
    told: &mut String,
) -> Result<(), NoMemory> {
    match found(alloc, rule, classes) {
        Ok(effect) => put_effect(alloc, "template", facts, &effect, told),
        Err(TargetFault::NoMemory) => Err(NoMemory),
        Err(TargetFault::At { line, kind }) => {
            writeln!(told, "    template {} in line {line}", kind.name())?;
            Ok(())
        }
    }
}

// What the pattern does, and the template.
fn put_effects(
    alloc: Global,
    rule: &Rule,
    classes: &[Class],
    told: &mut String,
) -> Result<(), NoMemory> {
    if 16 < rule.right.as_slice().len() {
        return Ok(());
    }
    let facts = rule_facts(alloc, rule, classes)?;
    let wanted = pattern_effect(alloc, rule, classes)?;
    put_effect(alloc, "pattern ", &facts, &wanted, told)?;
    put_template(alloc, &facts, rule, classes, told)?;
    match need(rule, classes) {
        0 => told.push_str("    needs no register\n")?,
        1 => told.push_str("    needs 1 register\n")?,
        need => writeln!(told, "    needs {need} registers")?,
    }
    Ok(())
}

// How often a rule is taken.
fn put_count(told: &mut String, counts: &Counts, number: usize) -> Result<(), AllocError> {
    match counts.rules.get(number).copied().unwrap_or(0) {
        0 => told.push_str("    never taken\n"),
        1 => told.push_str("    taken once\n"),
        count => writeln!(told, "    taken {count} times"),
    }
}

// How many rules are taken, and how many trees have no code.
fn put_sum(told: &mut String, counts: &Counts) -> Result<(), AllocError> {
    let rules = counts.rules.len();
    let taken = counts.rules.iter().filter(|count| 0 < **count).count();
    writeln!(told, "{taken} of {rules} rules are taken")?;
    if counts.stopped > 0 {
        writeln!(told, "trees without code: {}", counts.stopped)?;
    }
    Ok(())
}

/// Adds each rule with what its pattern and its template do, both in normal form, and how many registers it needs; and where counts are
/// given, how often it is taken, and how many rules are.
pub fn put_rules(
    alloc: Global,
    description: &Description,
    lines: &[u32],
    counts: Option<&Counts>,
    told: &mut String,
) -> Result<(), NoMemory> {
    let mut number = 0_usize;
    for rule in description.rules() {
        put_head(alloc, description, lines, number, rule, told)?;
        put_effects(alloc, rule, description.classes(), told)?;
        if let Some(counts) = counts {
            put_count(told, counts, number)?;
        }
        number = number.saturating_add(1);
    }
    if let Some(counts) = counts {
        put_sum(told, counts)?;
    }
    Ok(())
}
