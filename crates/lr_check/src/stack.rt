// The stack of a parse, and the questions that restricted rules ask.
ghost use Rattle.std.specs.Prelude.{◌≡◌, ◌<◌, length, IfSome, slice_get};
ghost use Rattle.lr_check.specs.Questions.{answers_of, answer_of, asked_of, first_place, question, question_at};
ghost use Rattle.lr_check.specs.Questions.{chosen};
ghost use Rattle.lr_check.specs.Steps.{top_of};

use crate::sample::SampleNode;
use lr_tables::{Choice, State};
use md_reader::Rule;

/// What stands on the stack for a symbol: the state to which it leads, the node whose token its part
/// of the tree begins with, and how many of that node's answers are used.
#[derive(Clone, Copy, Debug)]
pub struct Entry {
    pub state: State,
    pub node: usize,
    pub used: usize,
}

fn known_answers(nodes: &[SampleNode], node: usize) -> &[bool]
    ensures { result.now ≡ answers_of (slice_get nodes.now node) }
{
    match nodes.get(node) {
        Some(node) => node.answers(),
        None => &[],
    }
}

impl Entry {
    // Takes the next answer of the entry's node: a missing one is no.
    fn ask(&mut self, nodes: &[SampleNode]) -> bool
        ensures yes { result ≡ answer_of nodes.now self.old }
        ensures behind { self.new ≡ asked_of nodes.now self.old }
    {
        let answers = known_answers(nodes, self.node);
        if self.used < answers.len() {
            let yes = answers[self.used];
            self.used += 1;
            yes
        } else {
            false
        }
    }
}

/// Where the entry of the right side's first symbol stands, if so many symbols are there.
pub fn first_place(stack: &[Entry], rule: &Rule) -> Option<usize>
    ensures place { result ≡ first_place (length stack.now) (length rule.now.right) }
    ensures within { IfSome result (λ i. i < length stack.now) }
{
    let size = rule.right.as_slice().len();
    if size == 0 || stack.len() < size {
        None
    } else {
        Some(stack.len() - size)
    }
}

// Whether a rule is taken: it is not restricted, or the entry of its right side's first symbol answers
// yes.
fn is_taken(nodes: &[SampleNode], rule: &Rule, stack: &mut Vec<Entry>) -> bool
    ensures { record { yes = result; stack = stack.new.items } ≡ question nodes.now stack.old.items rule.now }
{
    if rule.restrictions.as_slice().len() == 0 {
        return true;
    }
    match first_place(stack.as_slice(), rule) {
        Some(place) => stack[place].ask(nodes),
        None => false,
    }
}

// Whether the rule with this number is taken.
fn is_taken_at(rules: &[Rule], nodes: &[SampleNode], number: u16, stack: &mut Vec<Entry>) -> bool
    ensures { record { yes = result; stack = stack.new.items } ≡ question_at nodes.now stack.old.items (slice_get rules.now number) }
{
    match rules.get(number as usize) {
        Some(rule) => is_taken(nodes, rule, stack),
        None => false,
    }
}

/// The first candidate that is not restricted, or is answered yes.
pub fn choose(
    rules: &[Rule],
    nodes: &[SampleNode],
    choices: &[Choice],
    stack: &mut Vec<Entry>,
) -> Option<Choice>
    ensures { record { choice = result; stack = stack.new.items } ≡ chosen rules.now nodes.now choices.now stack.old.items }
{
    for choice in choices {
        let number = match *choice {
            Choice::Reduce(number) => number,
            Choice::Shift(state) => return Some(Choice::Shift(state)),
            Choice::Accept => return Some(Choice::Accept),
        };
        if is_taken_at(rules, nodes, number, stack) {
            return Some(Choice::Reduce(number));
        }
    }
    None
}

/// The state of the stack.
pub fn top_of(stack: &[Entry]) -> State
    ensures { result ≡ top_of stack.now }
{
    match stack.last() {
        Some(entry) => entry.state,
        None => State::START,
    }
}
