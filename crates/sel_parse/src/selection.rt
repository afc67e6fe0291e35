// The attributed parse of a tree.
ghost use Rattle.std.specs.Prelude.{◌≡◌, ◌+◌, ◌-◌, ◌<◌, ◌≤◌, ◌^◌, OnOk, IfOk, IfErr, IfSome, OnErr, Some, Err, length, take};
ghost use Rattle.std.specs.Prelude.{replicate, true, false};
ghost use Rattle.std.specs.List.{slice_get, slice_set, slice_index_or};
ghost use Rattle.gg_base.specs.declared.limits.TheConstants.{NEED_LIMIT};
ghost use Rattle.lr_tables.specs.Leads.{target_at};
ghost use Rattle.md_reader.specs.declared.types.Sym.TheVariants as grammar_symbol;
ghost use Rattle.sel_parse_desk.specs.Reductions.{reduced};
ghost use Rattle.sel_parse_desk.specs.Selected.{tree_of, HasCode, FrameFull, Blocked};
ghost use Rattle.sel_parse_desk.specs.Mirror.{in_setting, stack_of, IsReady};
ghost use Rattle.sel_parse.specs.Steps.{config_of, takes, chosen, top_of, coming, shifted_turn, seen_before, placed, reduced_turn};
ghost use Rattle.sel_parse.specs.Steps.{turn_by, made_turn, step, by_tables, Onward, Falls, Turns, Ends};

use crate::generator::Generator;
use gg_base::NoMemory;
use lr_check::clear;
use lr_tables::{Choice, State, Tables};
use md_reader::Rule;
use sel_parse_desk::{Desk, DeskFault, Setting, answered, begin, reduce, shift};
use sel_regs::Slots;
use sel_target::Templates;
use std::alloc::{AllocError, AllocFailed, Global};
use tree_core::{Leaf, Tok, TreeProgram};

/// A tree's code.
#[derive(Drop)]
pub struct Selected<T: Templates> {
    pub instrs: Vec<T::Instr>,
}

/// Why a tree has no code.
#[derive(Clone, Copy, Debug, PartialEq, Eq)]
pub enum SelectFault {
    NoMemory,
    /// A value was to be saved, and no frame word was free.
    FrameFull,
}

// Why a parse ends without code. It blocks where it has nowhere to go on, or turns in a circle, or no entry can give up a register
// that is due.
#[derive(Clone, Copy, Debug, PartialEq, Eq)]
enum ParseFault {
    NoMemory,
    FrameFull,
    Blocked,
}

impl From<NoMemory> for ParseFault {
    ghost use Rattle.std.specs.Prelude.{◌≡◌};
    ghost use Rattle.sel_parse.specs.declared.selection.ParseFault.TheVariants as parse_fault;

    ghost from_gives = { λ _ e. e ≡ parse_fault.NoMemory };

    fn from(_: NoMemory) -> Self {
        ParseFault::NoMemory
    }
}

impl From<AllocError> for ParseFault {
    ghost use Rattle.std.specs.Prelude.{◌≡◌};
    ghost use Rattle.sel_parse.specs.declared.selection.ParseFault.TheVariants as parse_fault;

    ghost from_gives = { λ _ e. e ≡ parse_fault.NoMemory };

    fn from(_: AllocError) -> Self {
        ParseFault::NoMemory
    }
}

impl<T: Drop> From<AllocFailed<T>> for ParseFault {
    ghost use Rattle.std.specs.Prelude.{◌≡◌};
    ghost use Rattle.sel_parse.specs.declared.selection.ParseFault.TheVariants as parse_fault;

    ghost from_gives = { λ _ e. e ≡ parse_fault.NoMemory };

    fn from(_: AllocFailed<T>) -> Self {
        ParseFault::NoMemory
    }
}

impl From<DeskFault> for ParseFault {
    ghost use Rattle.std.specs.Prelude.{◌≡◌};
    ghost use Rattle.sel_parse.specs.Faults.{fault_of};

    ghost from_gives = { λ a e. e ≡ fault_of a };

    fn from(fault: DeskFault) -> Self {
        match fault {
            DeskFault::NoMemory => ParseFault::NoMemory,
            DeskFault::FrameFull => ParseFault::FrameFull,
            DeskFault::NoRegister => ParseFault::Blocked,
        }
    }
}

// Where a parse stands: the offset of the next leaf, the states of the stack, whose top stands last, the classes that were on top
// since a leaf was shifted or the stack became shorter, and the stack's entries with the code.
#[derive(Drop)]
struct Parse<O, I> {
    at: usize,
    states: Vec<State>,
    seen: Vec<bool>,
    desk: Desk<O, I>,
}

fn top_of(states: &[State]) -> State
    ensures { result ≡ top_of states.now }
{
    states.last().copied().unwrap_or(State::START)
}

fn leaf_at(tree: &[Leaf], at: usize) -> Option<Leaf>
    ensures leaf { result ≡ slice_get tree.now at }
    ensures within { IfSome result (λ _. at < length tree.now) }
{
    tree.get(at).copied()
}

// The next token: `End` behind the last leaf.
fn coming(tree: &[Leaf], at: usize) -> Tok
    ensures { result ≡ coming (slice_get tree.now at) }
{
    match leaf_at(tree, at) {
        Some(leaf) => leaf.tok,
        None => Tok::End,
    }
}

// Whether the rule with this number is taken: it isn't restricted, or its restrictions hold.
fn is_taken<T: Templates>(
    setting: &Setting<T>,
    desk: &Desk<T::Operand, T::Instr>,
    number: u16,
) -> Result<bool, NoMemory>
    ensures { IfOk result (λ yes. yes ≡ in_setting T.meaning setting.now takes (stack_of desk.now) number) }
{
    match setting.description.rules().get(number as usize) {
        None => Ok(false),
        Some(rule) => {
            if rule.restrictions.as_slice().len() == 0 {
                return Ok(true);
            }
            answered(setting, desk, rule)
        }
    }
}

// The first choice that is taken.
fn choose<T: Templates>(
    setting: &Setting<T>,
    desk: &Desk<T::Operand, T::Instr>,
    choices: &[Choice],
) -> Result<Option<Choice>, NoMemory>
    ensures { IfOk result (λ o. o ≡ chosen (in_setting T.meaning setting.now takes (stack_of desk.now)) choices.now) }
{
    for choice in choices {
        match *choice {
            Choice::Shift(state) => return Ok(Some(Choice::Shift(state))),
            Choice::Accept => return Ok(Some(Choice::Accept)),
            Choice::Reduce(number) => {
                if is_taken(setting, desk, number)? {
                    return Ok(Some(Choice::Reduce(number)));
                }
            }
        }
    }
    Ok(None)
}

// A leaf comes on the stack.
fn shift_leaf<T: Templates>(
    setting: &Setting<T>,
    parse: &mut Parse<T::Operand, T::Instr>,
    state: State,
    leaf: Leaf,
) -> Result<(), NoMemory>
    requires room { parse.old.at + 1 < 2 ^ 64 }
    requires ready { IsReady T.meaning parse.old.desk }
    ensures done { OnOk result (shifted_turn (config_of parse.old) state (Some leaf) ≡ Onward (config_of parse.new)) }
    ensures ready { OnOk result (IsReady T.meaning parse.new.desk) }
{
    shift(setting, &mut parse.desk, leaf)?;
    parse.states.push(state)?;
    clear(&mut parse.seen);
    parse.at += 1;
    Ok(())
}

// The class is on top, and the answer is whether it was before.
fn mark(seen: &mut Vec<bool>, class: u16) -> bool
    ensures again { result ≡ slice_index_or seen.old.items class false }
    ensures marked { result ≡ false → seen.new.items ≡ slice_set seen.old.items class true }
{
    let at = class as usize;
    if at < seen.len() {
        if seen[at] {
            return true;
        }
        seen[at] = true;
    }
    false
}

// The classes that were on top before a reduction that leaves the stack's length, or makes it shorter.
fn clear_behind(seen: &mut Vec<bool>, size: usize)
    ensures { seen.new.items ≡ seen_before seen.old.items size }
{
    if 1 < size {
        clear(seen);
    }
}

// The class comes on top of the states.
fn place<T: Templates>(
    tables: &Tables,
    parse: &mut Parse<T::Operand, T::Instr>,
    rule: &Rule,
    _target: &T,
) -> Result<(), ParseFault>
    requires ready { IsReady T.meaning parse.old.desk }
    ensures done { OnOk result (placed (config_of parse.old) parse.old.states.items rule.now (stack_of parse.old.desk)
        (target_at tables.now (top_of parse.old.states.items) (grammar_symbol.Class rule.now.left)) ≡ Onward (config_of parse.new)) }
    ensures fails { IfErr result (λ e. Falls e (placed (config_of parse.old) parse.old.states.items rule.now (stack_of parse.old.desk)
        (target_at tables.now (top_of parse.old.states.items) (grammar_symbol.Class rule.now.left)))) }
    ensures ready { OnOk result (IsReady T.meaning parse.new.desk) }
{
    let Some(state) = tables.go(top_of(&parse.states), rule.left) else {
        return Err(ParseFault::Blocked);
    };
    clear_behind(&mut parse.seen, rule.right.as_slice().len());
    if mark(&mut parse.seen, rule.left) {
        return Err(ParseFault::Blocked);
    }
    parse.states.push(state)?;
    Ok(())
}

// So many states are taken off.
fn take_off(states: &mut Vec<State>, size: usize)
    ensures { states.new.items ≡ take (length states.old.items - size) states.old.items }
{
    let base = states.len().saturating_sub(size);
    states.truncate(base);
}

// The rule's class comes in the place of its right side.
fn reduce_by<T: Templates>(
    setting: &Setting<T>,
    tables: &Tables,
    parse: &mut Parse<T::Operand, T::Instr>,
    rule: &Rule,
) -> Result<(), ParseFault>
    requires ready { IsReady T.meaning parse.old.desk }
    ensures done { OnOk result (reduced_turn tables.now (config_of parse.old) rule.now
        (in_setting T.meaning setting.now reduced rule.now (stack_of parse.old.desk)) ≡ Onward (config_of parse.new)) }
    ensures fails { IfErr result (λ e. Falls e (reduced_turn tables.now (config_of parse.old) rule.now
        (in_setting T.meaning setting.now reduced rule.now (stack_of parse.old.desk)))) }
    ensures ready { OnOk result (IsReady T.meaning parse.new.desk) }
{
    reduce(setting, &mut parse.desk, rule)?;
    take_off(&mut parse.states, rule.right.as_slice().len());
    place(tables, parse, rule, setting.target)
}

// The next leaf is shifted.
fn make_shift<T: Templates>(
    setting: &Setting<T>,
    tree: &[Leaf],
    parse: &mut Parse<T::Operand, T::Instr>,
    state: State,
) -> Result<(), ParseFault>
    requires ready { IsReady T.meaning parse.old.desk }
    ensures done { OnOk result (shifted_turn (config_of parse.old) state (slice_get tree.now parse.old.at)
        ≡ Onward (config_of parse.new)) }
    ensures fails { IfErr result (λ e. Falls e (shifted_turn (config_of parse.old) state (slice_get tree.now parse.old.at))) }
    ensures ready { OnOk result (IsReady T.meaning parse.new.desk) }
{
    let Some(leaf) = leaf_at(tree, parse.at) else {
        return Err(ParseFault::Blocked);
    };
    shift_leaf(setting, parse, state, leaf)?;
    Ok(())
}

// The rule with this number is taken.
fn make_reduction<T: Templates>(
    setting: &Setting<T>,
    tables: &Tables,
    parse: &mut Parse<T::Operand, T::Instr>,
    number: u16,
) -> Result<(), ParseFault>
    requires same { setting.now.description.now ≡ tables.now.content }
    requires ready { IsReady T.meaning parse.old.desk }
    ensures done { OnOk result (by_tables T.meaning setting.now tables.now turn_by (config_of parse.old)
        (slice_get tables.now.content.rules number) ≡ Onward (config_of parse.new)) }
    ensures fails { IfErr result (λ e. Falls e (by_tables T.meaning setting.now tables.now turn_by (config_of parse.old)
        (slice_get tables.now.content.rules number))) }
    ensures ready { OnOk result (IsReady T.meaning parse.new.desk) }
{
    let Some(rule) = tables.description().rules().get(number as usize) else {
        return Err(ParseFault::Blocked);
    };
    reduce_by(setting, tables, parse, rule)
}

// The choice is made. The answer is whether the parse is accepted.
fn make<T: Templates>(
    setting: &Setting<T>,
    tables: &Tables,
    tree: &[Leaf],
    parse: &mut Parse<T::Operand, T::Instr>,
    choice: Choice,
) -> Result<bool, ParseFault>
    requires same { setting.now.description.now ≡ tables.now.content }
    requires ready { IsReady T.meaning parse.old.desk }
    ensures onward { IfOk result (λ done. Turns done (config_of parse.old) (config_of parse.new)
        (by_tables T.meaning setting.now tables.now made_turn (config_of parse.old) (slice_get tree.now parse.old.at) (Some choice))) }
    ensures fails { IfErr result (λ e. Falls e (by_tables T.meaning setting.now tables.now made_turn (config_of parse.old)
        (slice_get tree.now parse.old.at) (Some choice))) }
    ensures ready { OnOk result (IsReady T.meaning parse.new.desk) }
{
    match choice {
        Choice::Accept => Ok(true),
        Choice::Shift(state) => {
            make_shift(setting, tree, parse, state)?;
            Ok(false)
        }
        Choice::Reduce(number) => {
            make_reduction(setting, tables, parse, number)?;
            Ok(false)
        }
    }
}

// One step. The answer is whether the parse is accepted.
fn step<T: Templates>(
    setting: &Setting<T>,
    tables: &Tables,
    tree: &[Leaf],
    parse: &mut Parse<T::Operand, T::Instr>,
) -> Result<bool, ParseFault>
    requires same { setting.now.description.now ≡ tables.now.content }
    requires ready { IsReady T.meaning parse.old.desk }
    ensures onward { IfOk result (λ done. Turns done (config_of parse.old) (config_of parse.new)
        (by_tables T.meaning setting.now tables.now step tree.now (config_of parse.old))) }
    ensures fails { IfErr result (λ e. Falls e (by_tables T.meaning setting.now tables.now step tree.now (config_of parse.old))) }
    ensures ready { OnOk result (IsReady T.meaning parse.new.desk) }
{
    let choices = tables.action(top_of(&parse.states), coming(tree, parse.at));
    match choose(setting, &parse.desk, choices)? {
        Some(choice) => make(setting, tables, tree, parse, choice),
        None => Err(ParseFault::Blocked),
    }
}

fn marks(alloc: Global, classes: usize) -> Result<Vec<bool>, NoMemory>
    ensures { IfOk result (λ v. v.items ≡ replicate classes false) }
{
    Ok(vec![in alloc; false; classes]?)
}

// What is kept behind the whole parse.
fn parsed<T: Templates>(
    setting: &Setting<T>,
    tables: &Tables,
    tree: &[Leaf],
) -> Result<Desk<T::Operand, T::Instr>, ParseFault>
    requires first { setting.now.first ≤ NEED_LIMIT }
    requires same { setting.now.description.now ≡ tables.now.content }
    ensures most { IfOk result (λ k. k.most ≤ NEED_LIMIT) }
    ensures code { IfOk result (λ k. Ends T.meaning setting.now.program.now tables.now.content setting.now.first tree.now (stack_of k)) }
    ensures full { result ≡ Err ParseFault.FrameFull → FrameFull T.meaning setting.now.program.now tables.now.content
        setting.now.first tree.now }
    ensures blocked { result ≡ Err ParseFault.Blocked → Blocked T.meaning setting.now.program.now tables.now.content setting.now.first
        tree.now }
{
    tables.description().is_valid();
    tables.is_numbered();
    let seen = marks(setting.alloc, tables.description().classes().len())?;
    let mut parse = Parse {
        at: 0,
        states: Vec::new(setting.alloc),
        seen,
        desk: begin(setting)?,
    };
    'steps: loop {
        let is_accepted = match step(setting, tables, tree, &mut parse) {
            Ok(is_accepted) => is_accepted,
            Err(fault) => return Err(fault),
        };
        if is_accepted {
            return Ok(parse.desk);
        }
    }
}

/// The code of a statement's tree, by its leaves in prefix order with `End` behind them, where its parse doesn't block: by tables that
/// were checked, no typed statement's does. Values are saved in frame words from the slots' first one on.
pub fn select<T: Templates>(
    alloc: Global,
    generator: &Generator<T>,
    program: &TreeProgram,
    leaves: &[Leaf],
    slots: &mut Slots,
) -> Result<Selected<T>, SelectFault>
    requires goes { Blocked T.meaning program.now generator.now.tables.content slots.old.first (tree_of leaves.now) → ⊥ }
    // The code is the tree's, and so many words are used at least as behind it.
    ensures code { IfOk result (λ s. HasCode T.meaning program.now generator.now.tables.content slots.old slots.new leaves.now
        s.instrs.items) }
    ensures full { result ≡ Err SelectFault.FrameFull → FrameFull T.meaning program.now generator.now.tables.content slots.old.first
        (tree_of leaves.now) }
    // Each word that is taken is given back; a refusal leaves the slots as they were.
    ensures taken { slots.new.taken ≡ slots.old.taken }
    ensures first { slots.new.first ≡ slots.old.first }
    ensures kept { OnErr result (slots.new ≡ slots.old) }
{
    let setting = Setting {
        alloc,
        target: &generator.target,
        program,
        description: generator.tables.description(),
        first: slots.first(),
    };
    let tree = &leaves[..leaves.len().saturating_sub(1)];
    let desk = match parsed(&setting, &generator.tables, tree) {
        Ok(desk) => desk,
        Err(ParseFault::NoMemory) => return Err(SelectFault::NoMemory),
        Err(ParseFault::FrameFull) => return Err(SelectFault::FrameFull),
        Err(ParseFault::Blocked) => unreachable!(),
    };
    slots.use_up_to(desk.most);
    Ok(Selected { instrs: desk.code })
}
