// The nodes of a term in prefix order, without recursion, so that a deep term takes no deep stack.

ghost use Rattle.std.specs.Prelude.{◌≡◌, ◌+◌, ◌++◌, ◌∷◌, IfOk};
ghost use Rattle.term_core.specs.Shape.{shape_of};
ghost use Rattle.term_core.specs.Form.{shape_of_form};
ghost use Rattle.term_core.specs.Nodes.{nodes_of, waiting, weight, Opens};

use crate::operator::{BinaryOp, UnaryOp};
use crate::term::{Form, Term, form_of};
use gg_base::{NoMemory, Size};
use std::alloc::Global;

/// A term's form without its parts.
#[derive(Clone, Copy, Debug, PartialEq, Eq)]
pub enum Node {
    Constant(u32),
    Symbol(u8),
    LastResult,
    Memory(Size),
    Unary(UnaryOp),
    Binary(BinaryOp),
}

// The first node of a form, whose parts are put on top of the terms that wait, the first part last.
#[tactic(auto, using(crate::proofs::Waiting::waiting_push, crate::proofs::Waiting::weight_push))]
fn open_form<'a>(waiting: &mut Vec<&'a Term>, form: Form<'a>) -> Result<Node, NoMemory>
    ensures { IfOk result (λ n. Opens n (shape_of_form form.entry) waiting.old.items waiting.new.items) }
{
    match form {
        Form::Constant(n) => Ok(Node::Constant(n)),
        Form::Symbol(i) => Ok(Node::Symbol(i)),
        Form::LastResult => Ok(Node::LastResult),
        Form::Memory(size, a) => {
            waiting.push(a)?;
            Ok(Node::Memory(size))
        }
        Form::Unary(op, t) => {
            waiting.push(t)?;
            Ok(Node::Unary(op))
        }
        Form::Binary(op, a, b) => {
            waiting.push(b)?;
            waiting.push(a)?;
            Ok(Node::Binary(op))
        }
    }
}

/// The first node of a term, whose parts are put on top of the terms that wait, the first part last.
pub fn open<'a>(waiting: &mut Vec<&'a Term>, t: &'a Term) -> Result<Node, NoMemory>
    ensures { IfOk result (λ n. Opens n (shape_of t.now) waiting.old.items waiting.new.items) }
{
    open_form(waiting, form_of(t))
}

/// The nodes of a term in prefix order.
#[tactic(auto, using(crate::proofs::Waiting::waiting_push, crate::proofs::Waiting::weight_push))]
pub fn prefix(alloc: Global, t: &Term) -> Result<Vec<Node>, NoMemory>
    ensures { IfOk result (λ v. v.items ≡ nodes_of (shape_of t.now)) }
{
    let mut nodes = Vec::new(alloc);
    let mut waiting = Vec::new(alloc);
    waiting.push(t)?;
    while let Some(next) = waiting.pop() {
        let node = open(&mut waiting, next)?;
        nodes.push(node)?;
    }
    Ok(nodes)
}
