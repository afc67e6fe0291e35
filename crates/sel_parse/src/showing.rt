// What is found of each rule.
ghost use Rattle.std.specs.Prelude.{◌≡◌, ◌≤◌, length, true};
ghost use Rattle.std.specs.List.{AllByRecursion, list_all};
ghost use Rattle.md_reader.specs.Valid.{IsRule, IsSpill, IsValid};
ghost use Rattle.sel_terms.specs.Effects.{effect_of, norm_effect};
ghost use Rattle.sel_terms.specs.RuleFacts.{saved_facts};
ghost use Rattle.sel_target.specs.Calls.{can_be_saved};
ghost use Rattle.sel_regs.specs.Need.{need};
ghost use Rattle.sel_parse.specs.Shown.{saved_wanted, unlike, compared, rule_refused, rules_refused};
ghost use Rattle.sel_parse.specs.Shown.{pools_refused, lines_refused, first_refusal};
ghost use Rattle.sel_parse.specs.Answers.{Refuses, fault_of};

use crate::fault::ShowFault;
use gg_base::Size;
use md_reader::{Class, Description, Kind, Line, Rule};
use sel_regs::need;
use sel_target::{TargetFault, Templates};
use sel_terms::{
    Act, Effect, Fact, Term, norm_effect, pattern_effect, rule_facts, same_effect, saved_facts,
};
use std::alloc::Global;

/// What the lines that save and reload are for, in their order.
const SAVED: [Kind; 8] = [
    Kind::Value(Size::Byte),
    Kind::Value(Size::Word),
    Kind::Value(Size::Long),
    Kind::Place(Size::Byte),
    Kind::Place(Size::Word),
    Kind::Place(Size::Long),
    Kind::Ea,
    Kind::Reg,
];

// A line or a rule whose template has a fault.
fn refused(rule: u32, fault: TargetFault) -> ShowFault
    ensures { result ≡ fault_of rule fault }
{
    match fault {
        TargetFault::NoMemory => ShowFault::NoMemory,
        TargetFault::At { line, kind } => ShowFault::Template { rule, line, kind },
    }
}

// The two effects, which differ or don't.
fn unlike(
    alloc: Global,
    rule: u32,
    facts: &[Fact],
    wanted: &Effect,
    found: &Effect,
) -> Result<(), ShowFault>
    ensures { Refuses result (unlike rule (norm_effect facts.now (effect_of wanted.now)) (norm_effect facts.now (effect_of found.now))) }
{
    let wanted = norm_effect(alloc, facts, wanted)?;
    let found = norm_effect(alloc, facts, found)?;
    if same_effect(alloc, &wanted, &found)? {
        return Ok(());
    }
    Err(ShowFault::Unshown {
        rule,
        wanted,
        found,
    })
}

fn rule_refused<T: Templates>(
    alloc: Global,
    target: &T,
    number: u32,
    rule: &Rule,
    classes: &[Class],
) -> Result<(), ShowFault>
    requires { IsRule classes.now rule.now }
    ensures { Refuses result (rule_refused T.meaning.effect classes.now number rule.now) }
{
    match target.effect(alloc, rule, classes) {
        Ok(found) => {
            let facts = rule_facts(alloc, rule, classes)?;
            let wanted = pattern_effect(alloc, rule, classes)?;
            unlike(alloc, number, &facts, &wanted, &found)
        }
        Err(fault) => Err(refused(number, fault)),
    }
}

fn rules_refused<T: Templates>(
    alloc: Global,
    target: &T,
    classes: &[Class],
    rules: &[Rule],
) -> Result<(), ShowFault>
    requires valid { AllByRecursion (IsRule classes.now) rules.now }
    requires few { length rules.now ≤ 1000 }
    ensures { Refuses result (rules_refused T.meaning.effect classes.now 1 rules.now) }
{
    for (number, rule) in rules.iter().enumerate() {
        rule_refused(alloc, target, number as u32 + 1, rule, classes)?;
    }
    Ok(())
}

fn pools_refused(registers: u32, classes: &[Class], rules: &[Rule]) -> Result<(), ShowFault>
    requires valid { AllByRecursion (IsRule classes.now) rules.now }
    requires few { length rules.now ≤ 1000 }
    ensures { Refuses result (pools_refused registers classes.now 1 rules.now) }
{
    for (number, rule) in rules.iter().enumerate() {
        let need = need(rule, classes);
        if registers < need {
            return Err(ShowFault::PoolSmall {
                rule: number as u32 + 1,
                need,
            });
        }
    }
    Ok(())
}

// What is wanted of a line that saves what is of this kind, or that reloads.
fn saved_wanted(alloc: Global, kind: Kind) -> Effect
    ensures { effect_of result ≡ saved_wanted kind }
{
    let value = Term::V(1);
    let act = match kind {
        Kind::Reg => Act::Value(value),
        Kind::Value(size) => Act::StoreHome(size, 0, value),
        Kind::Place(_) | Kind::Con | Kind::Ea | Kind::Nothing => Act::StoreHome(
            Size::Long,
            0,
            value,
        ),
    };
    Effect {
        act,
        divisors: Vec::new(alloc),
    }
}

fn line_refused<T: Templates>(
    alloc: Global,
    target: &T,
    kind: Kind,
    line: &Line,
) -> Result<(), ShowFault>
    requires kind { can_be_saved kind ≡ true }
    requires line { IsSpill line.now }
    ensures { Refuses result (compared 0 (saved_facts kind) (saved_wanted kind) (T.meaning.spill_effect kind line.now)) }
{
    match target.spill_effect(alloc, kind, line) {
        Ok(found) => {
            let wanted = saved_wanted(alloc, kind);
            unlike(alloc, 0, &saved_facts(kind), &wanted, &found)
        }
        Err(fault) => Err(refused(0, fault)),
    }
}

fn lines_refused<T: Templates>(
    alloc: Global,
    target: &T,
    kinds: &[Kind],
    lines: &[Line],
) -> Result<(), ShowFault>
    requires kinds { list_all can_be_saved kinds.now ≡ true }
    requires lines { AllByRecursion IsSpill lines.now }
    ensures { Refuses result (lines_refused T.meaning.spill_effect kinds.now lines.now) }
{
    for (kind, line) in kinds.iter().zip(lines) {
        line_refused(alloc, target, *kind, line)?;
    }
    Ok(())
}

/// The first refusal: of a pool that is too small, then of the lines that save and reload, then of the rules.
pub fn first_refusal<T: Templates>(
    alloc: Global,
    description: &Description,
    target: &T,
) -> Result<(), ShowFault>
    ensures { Refuses result (first_refusal T.meaning.effect T.meaning.spill_effect description.now) }
{
    description.is_valid();
    let classes = description.classes();
    let rules = description.rules();
    pools_refused(description.pool().count_ones(), classes, rules)?;
    lines_refused(alloc, target, &SAVED, description.spills())?;
    rules_refused(alloc, target, classes, rules)
}
