// What may be done at a state and a next token, seen from a list on top of the stack.
ghost use Rattle.std.specs.Prelude.{◌≡◌, IsTrue};
ghost use Rattle.lr_check_sets.specs.Automaton.{CanBlock};
ghost use Rattle.lr_check_sets.specs.Table.{candidates_of};
ghost use Rattle.lr_check_found.specs.Choices.{leads_by, seen, may_pass, is_out, HasFree};

use lr_tables::Choice;
use md_reader::Rule;

/// A candidate, seen from a list of so many symbols: whether it is a question that may be answered no,
/// and where it leads.
#[derive(Clone, Copy, Debug)]
pub struct Seen {
    pub asks: bool,
    pub leads: Leads,
}

/// A candidate leads out of the list, by a right side that is so many symbols longer or by a shift; it
/// makes this class of the whole list; or it is a reduction inside it.
#[derive(Clone, Copy, Debug)]
pub enum Leads {
    Out(usize),
    Whole(u16),
    Inside,
}

impl Seen {
    /// Whether the candidate leads out of the list.
    pub fn leads_out(&self) -> bool
        ensures { result ≡ is_out self.now.leads }
    {
        matches!(self.leads, Leads::Out(_))
    }
}

fn leads_by(long: usize, left: u16, size: usize) -> Leads
    ensures { result ≡ leads_by long left size }
{
    if long > size {
        Leads::Out(long - size)
    } else if long == size {
        Leads::Whole(left)
    } else {
        Leads::Inside
    }
}

/// How a choice looks from a list of so many symbols.
pub fn candidate(rules: &[Rule], choice: Choice, size: usize) -> Seen
    ensures { result ≡ seen rules.now size choice }
{
    match choice {
        Choice::Reduce(number) => match rules.get(number as usize) {
            Some(rule) => Seen {
                asks: rule.restrictions.as_slice().len() > 0,
                leads: leads_by(rule.right.as_slice().len(), rule.left, size),
            },
            None => Seen {
                asks: true,
                leads: Leads::Inside,
            },
        },
        _ => Seen {
            asks: false,
            leads: Leads::Out(0),
        },
    }
}

fn may_pass(rules: &[Rule], choice: Choice) -> bool
    ensures { result ≡ may_pass rules.now choice }
{
    candidate(rules, choice, 0).asks
}

/// Whether all of the choices may be answered no.
pub fn can_block(rules: &[Rule], choices: &[Choice]) -> bool
    ensures blocks { CanBlock (candidates_of rules.now choices.now) → IsTrue result }
    ensures real { IsTrue result → CanBlock (candidates_of rules.now choices.now) }
{
    choices.iter().all(|choice| may_pass(rules, *choice))
}

/// The choices that some answers take: no further than the first that may not be answered no.
pub fn free_choices<'a>(rules: &[Rule], choices: &'a [Choice]) -> &'a [Choice]
    ensures { HasFree rules.now choices.now result.now }
{
    match choices.iter().position(|choice| !may_pass(rules, *choice)) {
        Some(at) => &choices[..at + 1],
        None => choices,
    }
}
