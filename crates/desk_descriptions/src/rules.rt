// Which rules of a description are not shown, and why.
use crate::causes::{Cause, cause_of};
use desk_page::advice::{NOT_INSTR, RULES};
use desk_page::{line_at, put_advice, put_place, put_wrapped, word_column};
use desk_rule_lines::{line_of, put_rule};
use gg_base::{NoMemory, Size};
use md_reader::{Description, Kind, Line, Rule};
use sel_regs::need;
use sel_target::{TargetFault, TemplateKind};
use sel_terms::{
    Act, Effect, Fact, Term, norm_effect, pattern_effect, rule_facts, same_effect, saved_facts,
    show_effect,
};
use std::alloc::Global;
use vax_target::found::{found, saved_found};

/// A description with its text, the lines of its rules, and the name of its file.
#[derive(Drop)]
pub struct Described<'a> {
    pub name: &'a str,
    pub text: &'a [u8],
    pub lines: &'a [u32],
    pub description: &'a Description,
}

// The most symbols of a rule's right side; the reader takes no more.
const MOST_SYMBOLS: usize = 16;

// The lines that save and reload, in their order.
const SAVED: [Kind; 8] = [
    Kind::Value(Size::Byte),
    Kind::Value(Size::Word),
    Kind::Value(Size::Long),
    Kind::Place(Size::Byte),
    Kind::Place(Size::Word),
    Kind::Place(Size::Long),
    Kind::Ea,
    Kind::Reg,
];

// What a line belongs to.
#[derive(Clone, Copy)]
enum Owner {
    /// The lines that save and reload.
    Saving,
    /// The rule with this number, from 0.
    Rule(usize),
}

// A line of the description, and what it belongs to.
#[derive(Clone, Copy)]
struct Spot {
    owner: Owner,
    line: u32,
}

// What a rule is called: its number from 1, its line, and the rule itself.
fn owner_name(alloc: Global, described: &Described, owner: Owner) -> Result<String, NoMemory> {
    let Owner::Rule(number) = owner else {
        return Ok(String::from_str(alloc, "the lines that save and reload")?);
    };
    let shown = number.saturating_add(1);
    let line = line_of(described.lines, number);
    let mut said = format!(in alloc; "rule {shown}, line {line}: ")?;
    put_rule(&mut said, described.description, number)?;
    Ok(said)
}

// The column of a line's second word, which is what a line of a rule says; else of the first.
fn column_of(text: &[u8], line: u32) -> u32 {
    match line_at(text, line) {
        Some(bytes) => word_column(bytes, 1),
        None => 0,
    }
}

// A line of the description, what is wrong there and in which rule, with the line itself.
fn put_head(
    alloc: Global,
    described: &Described,
    spot: Spot,
    said: &str,
    told: &mut String,
) -> Result<(), NoMemory> {
    let named = owner_name(alloc, described, spot.owner)?;
    let line = spot.line;
    let head = format!(in alloc; "{}:{line}: {said} ({named})", described.name)?;
    put_wrapped(told, &head, "    ")?;
    let column = column_of(described.text, line);
    put_place(alloc, told, described.text, line, column)
}

// A line with its name and an effect.
fn put_effect(
    alloc: Global,
    name: &str,
    effect: &Effect,
    told: &mut String,
) -> Result<(), NoMemory> {
    let text = show_effect(alloc, effect)?;
    let text = String::from_utf8_lossy(alloc, text.as_slice())?;
    let line = format!(in alloc; "  {name} {text}")?;
    put_wrapped(told, &line, "      ")
}

// The effect that is wanted and the one that is found, in normal form, where they differ.
fn put_difference(
    alloc: Global,
    described: &Described,
    spot: Spot,
    wanted: &Effect,
    found: &Effect,
    told: &mut String,
) -> Result<(), NoMemory> {
    if same_effect(alloc, wanted, found)? {
        return Ok(());
    }
    let said = "does something else than its pattern says";
    put_head(alloc, described, spot, said, told)?;
    put_effect(alloc, "wanted", wanted, told)?;
    put_effect(alloc, "found ", found, told)?;
    put_advice(told, &RULES, "unshown")
}

// The normal forms of the effect that is wanted and of the one that is found, where they differ.
fn put_compared(
    alloc: Global,
    described: &Described,
    spot: Spot,
    facts: &[Fact],
    wanted: &Effect,
    found: &Effect,
    told: &mut String,
) -> Result<(), NoMemory> {
    let wanted = norm_effect(alloc, facts, wanted)?;
    let found = norm_effect(alloc, facts, found)?;
    put_difference(alloc, described, spot, &wanted, &found, told)
}

// A fault of a template, with its likely cause.
fn put_template(
    alloc: Global,
    described: &Described,
    spot: Spot,
    kind: TemplateKind,
    cause: Cause,
    told: &mut String,
) -> Result<(), NoMemory> {
    put_head(alloc, described, spot, kind.name(), told)?;
    match kind {
        TemplateKind::NotInstr => put_advice(told, &NOT_INSTR, cause.name()),
        TemplateKind::WrongSize | TemplateKind::Order => put_advice(told, &RULES, kind.name()),
    }
}

// What is wanted of a line that saves what is of this kind, or that reloads.
fn wanted_of(alloc: Global, kind: Kind) -> Effect {
    let value = Term::V(1);
    let act = match kind {
        Kind::Reg => Act::Value(value),
        Kind::Value(size) => Act::StoreHome(size, 0, value),
        Kind::Place(_) | Kind::Con | Kind::Ea | Kind::Nothing => {
            Act::StoreHome(Size::Long, 0, value)
        }
    };
    Effect {
        act,
        divisors: Vec::new(alloc),
    }
}

// What is wrong with a line that saves what is of this kind, or that reloads.
fn put_saved(
    alloc: Global,
    described: &Described,
    kind: Kind,
    line: &Line,
    told: &mut String,
) -> Result<(), NoMemory> {
    let mut spot = Spot {
        owner: Owner::Saving,
        line: line.line,
    };
    match saved_found(alloc, kind, line) {
        Ok(found) => {
            let wanted = wanted_of(alloc, kind);
            let facts = saved_facts(kind);
            put_compared(alloc, described, spot, &facts, &wanted, &found, told)
        }
        Err(TargetFault::NoMemory) => Err(NoMemory),
        Err(TargetFault::At { line, kind }) => {
            spot.line = line;
            put_template(alloc, described, spot, kind, Cause::Mnemonic, told)
        }
    }
}

// The effect of a rule's pattern and the one that is found of its template, where they differ.
fn put_pattern(
    alloc: Global,
    described: &Described,
    spot: Spot,
    rule: &Rule,
    found: &Effect,
    told: &mut String,
) -> Result<(), NoMemory> {
    if MOST_SYMBOLS < rule.right.as_slice().len() {
        return Ok(());
    }
    let classes = described.description.classes();
    let facts = rule_facts(alloc, rule, classes)?;
    let wanted = pattern_effect(alloc, rule, classes)?;
    put_compared(alloc, described, spot, &facts, &wanted, found, told)
}

// What is wrong with the template of a rule, by its number from 0.
fn put_judged(
    alloc: Global,
    described: &Described,
    number: usize,
    rule: &Rule,
    told: &mut String,
) -> Result<(), NoMemory> {
    let classes = described.description.classes();
    let mut spot = Spot {
        owner: Owner::Rule(number),
        line: line_of(described.lines, number),
    };
    match found(alloc, rule, classes) {
        Ok(found) => put_pattern(alloc, described, spot, rule, &found, told),
        Err(TargetFault::NoMemory) => Err(NoMemory),
        Err(TargetFault::At { line, kind }) => {
            let cause = cause_of(alloc, rule, classes, line)?;
            if line > 0 {
                spot.line = line;
            }
            put_template(alloc, described, spot, kind, cause, told)
        }
    }
}

// Whether a rule needs more registers than the pool has.
fn put_need(
    alloc: Global,
    described: &Described,
    number: usize,
    rule: &Rule,
    told: &mut String,
) -> Result<(), NoMemory> {
    if MOST_SYMBOLS < rule.right.as_slice().len() {
        return Ok(());
    }
    let registers = described.description.pool().count_ones();
    let need = need(rule, described.description.classes());
    if need <= registers {
        return Ok(());
    }
    let spot = Spot {
        owner: Owner::Rule(number),
        line: line_of(described.lines, number),
    };
    let said = format!(in alloc; "needs {need} registers of {registers}")?;
    put_head(alloc, described, spot, &said, told)?;
    put_advice(told, &RULES, "registers")
}

/// Adds each refusal of the rules and of the lines that save and reload: of the pool first, then of these lines, then rule by rule.
pub fn put_rules(alloc: Global, described: &Described, told: &mut String) -> Result<(), NoMemory> {
    for (number, rule) in described.description.rules().iter().enumerate() {
        put_need(alloc, described, number, rule, told)?;
    }
    for (line, kind) in described.description.spills().iter().zip(SAVED) {
        put_saved(alloc, described, kind, line, told)?;
    }
    for (number, rule) in described.description.rules().iter().enumerate() {
        put_judged(alloc, described, number, rule, told)?;
    }
    Ok(())
}
