// What some answers take at a state.
ghost use Rattle.std.specs.Prelude.{◌≡◌, ℕ, List, IsTrue, IfOk, IfSome, Contains};
ghost use Rattle.tree_core.specs.declared.token.Tok.{Tok};
ghost use Rattle.md_reader.specs.declared.types.Rule.{Rule};
ghost use Rattle.lr_tables.specs.declared.types.Choice.{Choice};
ghost use Rattle.lr_check_found.specs.lr_check_sets.specs.Automaton.{Candidate, shift, Free, CanBlock};
ghost use Rattle.lr_check_found.specs.lr_check_sets.specs.Table.{automaton_of, production};
ghost use Rattle.lr_check_found.specs.Choices.{CandidateOf};
ghost use Rattle.lr_check_ways.specs.Sets.{In};
ghost use Rattle.lr_check_ways.specs.declared.ways.Reduction.{Reduction};
ghost use Rattle.lr_check_ways.specs.Ways.{IsBy, MakesOne, IsAmong, IsTaken, AreWays};

use crate::sets::{has, with};
use gg_base::NoMemory;
use lr_check_found::{can_block, free_choices};
use lr_tables::{Choice, State, Tables};
use md_reader::Rule;
use std::alloc::Global;
use tree_core::{Tok, tokens};

/// A reduction that some answers take: by a right side of so many symbols, to the class, with each of the tokens next.
#[derive(Clone, Copy, Debug)]
pub struct Reduction {
    pub long: usize,
    pub class: u16,
    pub tokens: u64,
}

/// What some answers take at a state: the tokens that are shifted, and the reductions. And the tokens with which some answers take
/// nothing.
#[derive(Drop)]
pub struct Ways {
    pub shifts: u64,
    pub blocked: u64,
    pub reductions: Vec<Reduction>,
}

fn add_reduction(
    reductions: &mut Vec<Reduction>,
    long: usize,
    class: u16,
    token: Tok,
) -> Result<(), NoMemory> {
    let at = match reductions
        .iter()
        .position(|held| held.long == long && held.class == class)
    {
        Some(at) => at,
        None => {
            reductions.push(Reduction {
                long,
                class,
                tokens: 0,
            })?;
            reductions.len() - 1
        }
    };
    if let Some(held) = reductions.get_mut(at) {
        held.tokens = with(held.tokens, token);
    }
    Ok(())
}

// The choice comes to the ways.
fn add_choice(ways: &mut Ways, rules: &[Rule], choice: Choice, token: Tok) -> Result<(), NoMemory> {
    match choice {
        Choice::Reduce(number) => match rules.get(number as usize) {
            Some(rule) => add_reduction(
                &mut ways.reductions,
                rule.right.as_slice().len(),
                rule.left,
                token,
            ),
            None => Ok(()),
        },
        _ => {
            ways.shifts = with(ways.shifts, token);
            Ok(())
        }
    }
}

// The ways at the state; that they are right is looked at behind this.
fn gathered(alloc: Global, tables: &Tables, state: State) -> Result<Ways, NoMemory> {
    let rules = tables.description().rules();
    let mut ways = Ways {
        shifts: 0,
        blocked: 0,
        reductions: Vec::new(alloc),
    };
    for token in tokens() {
        let choices = tables.action(state, *token);
        if can_block(rules, choices) {
            ways.blocked = with(ways.blocked, *token);
        }
        for choice in free_choices(rules, choices) {
            add_choice(&mut ways, rules, *choice, *token)?;
        }
    }
    Ok(ways)
}

// Whether the rule makes the reduction's class of so many symbols.
fn is_rule(rule: &Rule, reduction: &Reduction) -> bool
    ensures { IsTrue result → IsBy reduction.now (production rule.now) }
{
    if reduction.long != rule.right.as_slice().len() {
        return false;
    }
    reduction.class == rule.left
}

// Whether the choice is by such a rule.
fn makes(rules: &[Rule], choice: Choice, reduction: &Reduction) -> bool
    ensures { IsTrue result → MakesOne rules.now reduction.now choice }
{
    match choice {
        Choice::Reduce(number) => match rules.get(number as usize) {
            Some(rule) => is_rule(rule, reduction),
            None => false,
        },
        _ => false,
    }
}

fn some_makes(rules: &[Rule], choices: &[Choice], reduction: &Reduction) -> bool
    ensures { IsTrue result → (d : Choice) × (Contains choices.now d × MakesOne rules.now reduction.now d) }
{
    choices
        .iter()
        .any(|choice| makes(rules, *choice, reduction))
}

// Whether some answers take the reduction with the token next.
fn is_taken(tables: &Tables, state: State, reduction: &Reduction, token: Tok) -> bool
    ensures { IsTrue result → IsTaken (automaton_of tables.now) state token reduction.now }
{
    let rules = tables.description().rules();
    some_makes(
        rules,
        free_choices(rules, tables.action(state, token)),
        reduction,
    )
}

// The same, if the token is one of the reduction's.
fn is_taken_if(tables: &Tables, state: State, reduction: &Reduction, token: Tok) -> bool
    ensures { IsTrue result → In reduction.now.tokens token → IsTaken (automaton_of tables.now) state token reduction.now }
{
    if !has(reduction.tokens, token) {
        return true;
    }
    is_taken(tables, state, reduction, token)
}

fn is_all_taken(tables: &Tables, state: State, reduction: &Reduction, nexts: &[Tok]) -> bool
    ensures { IsTrue result → (b : Tok) → Contains nexts.now b → In reduction.now.tokens b
        → IsTaken (automaton_of tables.now) state b reduction.now }
{
    nexts
        .iter()
        .all(|token| is_taken_if(tables, state, reduction, *token))
}

fn are_all_taken(tables: &Tables, state: State, reductions: &[Reduction], nexts: &[Tok]) -> bool
    ensures { IsTrue result → (x : Reduction) → Contains reductions.now x → (b : Tok) → Contains nexts.now b → In x.tokens b
        → IsTaken (automaton_of tables.now) state b x }
{
    reductions
        .iter()
        .all(|reduction| is_all_taken(tables, state, reduction, nexts))
}

// Whether the reduction is by the rule, and has the token.
fn is_by(reduction: &Reduction, rule: &Rule, token: Tok) -> bool
    ensures by { IsTrue result → IsBy reduction.now (production rule.now) }
    ensures has { IsTrue result → In reduction.now.tokens token }
{
    if !is_rule(rule, reduction) {
        return false;
    }
    has(reduction.tokens, token)
}

fn some_is_by(reductions: &[Reduction], rule: &Rule, token: Tok) -> bool
    ensures { IsTrue result → (x : Reduction) × (Contains reductions.now x × (IsBy x (production rule.now) × In x.tokens token)) }
{
    reductions
        .iter()
        .any(|reduction| is_by(reduction, rule, token))
}

// Whether the choice is among the ways.
fn is_among(rules: &[Rule], choice: Choice, ways: &Ways, token: Tok) -> bool
    ensures { IsTrue result → (c : Candidate) → CandidateOf rules.now choice c
        → IsAmong ways.now.reductions.items ways.now.shifts token c }
{
    match choice {
        Choice::Reduce(number) => match rules.get(number as usize) {
            Some(rule) => some_is_by(&ways.reductions, rule, token),
            None => true,
        },
        _ => has(ways.shifts, token),
    }
}

fn all_among(rules: &[Rule], choices: &[Choice], ways: &Ways, token: Tok) -> bool
    ensures { IsTrue result → (d : Choice) → Contains choices.now d → (c : Candidate) → CandidateOf rules.now d c
        → IsAmong ways.now.reductions.items ways.now.shifts token c }
{
    choices
        .iter()
        .all(|choice| is_among(rules, *choice, ways, token))
}

// Whether all that some answers take with the token next is among the ways.
fn is_whole_at(tables: &Tables, state: State, ways: &Ways, token: Tok) -> bool
    ensures { IsTrue result → (c : Candidate) → Free ((automaton_of tables.now).candidates state token) c
        → IsAmong ways.now.reductions.items ways.now.shifts token c }
{
    let rules = tables.description().rules();
    all_among(
        rules,
        free_choices(rules, tables.action(state, token)),
        ways,
        token,
    )
}

fn is_whole(tables: &Tables, state: State, ways: &Ways, nexts: &[Tok]) -> bool
    ensures { IsTrue result → (b : Tok) → Contains nexts.now b → (c : Candidate)
        → Free ((automaton_of tables.now).candidates state b) c → IsAmong ways.now.reductions.items ways.now.shifts b c }
{
    nexts
        .iter()
        .all(|token| is_whole_at(tables, state, ways, *token))
}

fn is_shift(choice: Choice) -> bool
    ensures { (rules : List Rule) → IsTrue result → CandidateOf rules choice shift }
{
    match choice {
        Choice::Reduce(_) => false,
        _ => true,
    }
}

fn some_shift(choices: &[Choice]) -> bool
    ensures { (rules : List Rule) → IsTrue result → (d : Choice) × (Contains choices.now d × CandidateOf rules d shift) }
{
    choices.iter().any(|choice| is_shift(*choice))
}

// Whether some answers shift the token, if the ways have it so.
fn is_shifted(tables: &Tables, state: State, ways: &Ways, token: Tok) -> bool
    ensures { IsTrue result → In ways.now.shifts token → Free ((automaton_of tables.now).candidates state token) shift }
{
    if !has(ways.shifts, token) {
        return true;
    }
    let rules = tables.description().rules();
    some_shift(free_choices(rules, tables.action(state, token)))
}

fn are_shifted(tables: &Tables, state: State, ways: &Ways, nexts: &[Tok]) -> bool
    ensures { IsTrue result → (b : Tok) → Contains nexts.now b → In ways.now.shifts b
        → Free ((automaton_of tables.now).candidates state b) shift }
{
    nexts
        .iter()
        .all(|token| is_shifted(tables, state, ways, *token))
}

// Whether the token is blocked, if some answers take nothing.
fn is_blocked(tables: &Tables, state: State, ways: &Ways, token: Tok) -> bool
    ensures { IsTrue result → CanBlock ((automaton_of tables.now).candidates state token) → In ways.now.blocked token }
{
    if has(ways.blocked, token) {
        return true;
    }
    !can_block(tables.description().rules(), tables.action(state, token))
}

fn are_blocked(tables: &Tables, state: State, ways: &Ways, nexts: &[Tok]) -> bool
    ensures { IsTrue result → (b : Tok) → Contains nexts.now b → CanBlock ((automaton_of tables.now).candidates state b)
        → In ways.now.blocked b }
{
    nexts
        .iter()
        .all(|token| is_blocked(tables, state, ways, *token))
}

// Whether the ways are right.
fn are_right(tables: &Tables, state: State, ways: &Ways) -> bool
    ensures { IsTrue result → AreWays (automaton_of tables.now) state ways.now }
{
    if !is_whole(tables, state, ways, tokens()) {
        return false;
    }
    if !are_shifted(tables, state, ways, tokens()) {
        return false;
    }
    if !are_all_taken(tables, state, &ways.reductions, tokens()) {
        return false;
    }
    are_blocked(tables, state, ways, tokens())
}

/// The ways at the state; none would be a fault of this program.
pub fn ways_at(alloc: Global, tables: &Tables, state: State) -> Result<Option<Ways>, NoMemory>
    ensures { IfOk result (λ o. IfSome o (λ w. AreWays (automaton_of tables.now) state w)) }
{
    let ways = gathered(alloc, tables, state)?;
    if are_right(tables, state, &ways) {
        Ok(Some(ways))
    } else {
        Ok(None)
    }
}
