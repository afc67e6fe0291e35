// The selection of a tree, with the rules that it takes.
ghost use Rattle.std.specs.Prelude.{◌≤◌};
ghost use Rattle.gg_base.specs.declared.limits.TheConstants.{NEED_LIMIT};
ghost use Rattle.sel_parse_desk.specs.Mirror.{IsReady};
ghost use Rattle.vax_target.specs.vax_target_meaning.specs.Vax.{vax};

use gg_base::NoMemory;
use gg_base::limits::NEED_LIMIT;
use lr_tables::{Choice, State, Tables};
use md_reader::Rule;
use sel_parse_desk::{Desk, DeskFault, Setting, answered, begin, reduce, shift};
use std::alloc::Global;
use tree_core::{Leaf, Tok, TreeProgram};
use vax_core::{Instr, Operand};
use vax_target::Vax;

// The most steps of one tree.
const MOST_STEPS: u32 = 10_000_000;

/// A rule that was taken, by its number from 0, and the instructions that came with it: from the first up to before the last.
#[derive(Clone, Copy, Debug, PartialEq, Eq)]
pub struct Taken {
    pub rule: u16,
    pub first: usize,
    pub behind: usize,
}

/// How a selection ends.
#[derive(Clone, Copy, Debug, PartialEq, Eq)]
pub enum Ending {
    Done,
    /// No rule may be taken, or no register can be had.
    Blocks,
    /// No frame word is free.
    FrameFull,
    /// More steps than are made.
    Long,
}

/// The rules that a tree takes, its code, and how its selection ends.
#[derive(Drop)]
pub struct Selection {
    pub taken: Vec<Taken>,
    pub code: Vec<Instr>,
    pub ending: Ending,
}

// Where a selection stands: the next leaf, the states of the stack, and the stack with the code so far.
#[derive(Drop)]
struct Parse {
    at: usize,
    states: Vec<State>,
    desk: Desk<Operand, Instr>,
    ghost ready: { IsReady vax desk },
}

// What a step leads to.
#[derive(Drop)]
enum Turn {
    Onward(Parse),
    Ends(Parse),
    Stops(Ending),
}

fn top_of(states: &[State]) -> State {
    states.last().copied().unwrap_or(State::START)
}

fn coming(tree: &[Leaf], at: usize) -> Tok {
    match tree.get(at) {
        Some(leaf) => leaf.tok,
        None => Tok::End,
    }
}

// The first choice whose rule has no restriction that fails.
fn choose(
    setting: &Setting<Vax>,
    desk: &Desk<Operand, Instr>,
    choices: &[Choice],
) -> Result<Option<Choice>, NoMemory> {
    for choice in choices {
        let Choice::Reduce(number) = *choice else {
            return Ok(Some(*choice));
        };
        if let Some(rule) = setting.description.rules().get(number as usize) {
            if answered(setting, desk, rule)? {
                return Ok(Some(*choice));
            }
        }
    }
    Ok(None)
}

// The leaf comes on the stack.
fn shifted(
    setting: &Setting<Vax>,
    parse: Parse,
    state: State,
    leaf: Leaf,
) -> Result<Turn, NoMemory> {
    let Parse {
        at,
        mut states,
        mut desk,
    } = parse;
    shift(setting, &mut desk, leaf)?;
    states.push(state)?;
    Ok(Turn::Onward(Parse {
        at: at.saturating_add(1),
        states,
        desk,
    }))
}

// The rule's class comes in the place of its symbols.
fn reduced(
    setting: &Setting<Vax>,
    tables: &Tables,
    parse: Parse,
    number: u16,
    rule: &Rule,
    taken: &mut Vec<Taken>,
) -> Result<Turn, NoMemory> {
    let Parse {
        at,
        mut states,
        mut desk,
    } = parse;
    let first = desk.code.len();
    match reduce(setting, &mut desk, rule) {
        Ok(()) => {}
        Err(DeskFault::NoMemory) => return Err(NoMemory),
        Err(DeskFault::FrameFull) => return Ok(Turn::Stops(Ending::FrameFull)),
        Err(DeskFault::NoRegister) => return Ok(Turn::Stops(Ending::Blocks)),
    }
    taken.push(Taken {
        rule: number,
        first,
        behind: desk.code.len(),
    })?;
    states.truncate(states.len().saturating_sub(rule.right.as_slice().len()));
    let Some(state) = tables.go(top_of(&states), rule.left) else {
        return Ok(Turn::Stops(Ending::Blocks));
    };
    states.push(state)?;
    Ok(Turn::Onward(Parse { at, states, desk }))
}

// The choice is made.
fn made(
    setting: &Setting<Vax>,
    tables: &Tables,
    tree: &[Leaf],
    parse: Parse,
    choice: Choice,
    taken: &mut Vec<Taken>,
) -> Result<Turn, NoMemory> {
    match choice {
        Choice::Accept => Ok(Turn::Ends(parse)),
        Choice::Shift(state) => match tree.get(parse.at).copied() {
            Some(leaf) => shifted(setting, parse, state, leaf),
            None => Ok(Turn::Stops(Ending::Blocks)),
        },
        Choice::Reduce(number) => {
            match tables.description().rules().get(number as usize) {
                Some(rule) => reduced(setting, tables, parse, number, rule, taken),
                None => Ok(Turn::Stops(Ending::Blocks)),
            }
        }
    }
}

fn step(
    setting: &Setting<Vax>,
    tables: &Tables,
    tree: &[Leaf],
    parse: Parse,
    taken: &mut Vec<Taken>,
) -> Result<Turn, NoMemory> {
    let choices = tables.action(top_of(&parse.states), coming(tree, parse.at));
    match choose(setting, &parse.desk, choices)? {
        Some(choice) => made(setting, tables, tree, parse, choice, taken),
        None => Ok(Turn::Stops(Ending::Blocks)),
    }
}

// A parse that begins; its frame words begin at `NEED_LIMIT` at most.
fn begun(setting: &Setting<Vax>) -> Result<Parse, NoMemory>
    requires { setting.now.first ≤ NEED_LIMIT }
{
    Ok(Parse {
        at: 0,
        states: Vec::new(setting.alloc),
        desk: begin(setting)?,
    })
}

// The code so far.
fn code_of(parse: Parse) -> Vec<Instr> {
    let desk = parse.desk;
    desk.code
}

// The rules that a tree takes and its code, where the words of the frame that may hold values are not behind its end.
fn selected(setting: &Setting<Vax>, tables: &Tables, tree: &[Leaf]) -> Result<Selection, NoMemory>
    requires { setting.now.first ≤ NEED_LIMIT }
{
    let alloc = setting.alloc;
    let mut taken = Vec::new(alloc);
    let mut parse = begun(setting)?;
    for _ in 0..MOST_STEPS {
        match step(setting, tables, tree, parse, &mut taken)? {
            Turn::Onward(next) => parse = next,
            Turn::Ends(parse) => {
                return Ok(Selection {
                    taken,
                    code: code_of(parse),
                    ending: Ending::Done,
                });
            }
            Turn::Stops(ending) => {
                return Ok(Selection {
                    taken,
                    code: Vec::new(alloc),
                    ending,
                });
            }
        }
    }
    Ok(Selection {
        taken,
        code: code_of(parse),
        ending: Ending::Long,
    })
}

/// The rules that a tree takes by a description's tables, and its code. The tree is a statement's leaves in prefix order, without `End`;
/// values are saved in frame words from `first` on.
pub fn select_tree(
    alloc: Global,
    tables: &Tables,
    program: &TreeProgram,
    first: u32,
    tree: &[Leaf],
) -> Result<Selection, NoMemory> {
    if first > NEED_LIMIT {
        return Ok(Selection {
            taken: Vec::new(alloc),
            code: Vec::new(alloc),
            ending: Ending::FrameFull,
        });
    }
    let setting = Setting {
        alloc,
        target: &Vax,
        program,
        description: tables.description(),
        first,
    };
    selected(&setting, tables, tree)
}
