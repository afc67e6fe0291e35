// What trees stand for where a machine stands.

ghost use Rattle.std.specs.Prelude.{◌≡◌, ◌≤◌, IfOk, OnOk, length, drop, reverse, slice_get};
ghost use Rattle.tree_core.specs.Grammar.{kids};
ghost use Rattle.tree_core.specs.Trees.{grown};
ghost use Rattle.tree_meaning.specs.State.{sight};
ghost use Rattle.tree_meaning.specs.Operators.{operated, converted};
ghost use Rattle.tree_meaning.specs.Values.{read, kid, at, two, one, address_of, token_means, leaf_means, meanings};
ghost use Rattle.tree_meaning.specs.View.{state, kid_at, with_leaf};

use crate::machine::Machine;
use crate::value::{Meaning, Value, converted, operated};
use gg_base::{Size, w32};
use std::alloc::{AllocError, Global};
use tree_core::area::fetch;
use tree_core::{Att, Leaf, Tok};

impl<'a> Machine<'a> {
    /// What the trees with these leaves stand for, the first one last.
    pub(crate) fn meanings(
        &self,
        alloc: Global,
        leaves: &[Leaf],
    ) -> Result<Vec<Meaning>, AllocError>
        ensures { IfOk result (λ stack. reverse stack.items ≡ meanings self.now.program.now.objects (sight (state self.now))
            (grown leaves.now)) }
    {
        let mut stack = Vec::new(alloc);
        for leaf in leaves.iter().rev() {
            self.read_leaf(&mut stack, *leaf)?;
        }
        Ok(stack)
    }

    fn read_leaf(&self, stack: &mut Vec<Meaning>, leaf: Leaf) -> Result<(), AllocError>
        ensures { OnOk result (reverse stack.new.items ≡ with_leaf self.now.program.now.objects (sight (state self.now)) leaf
            (reverse stack.old.items)) }
    {
        let (first, second) = take_kids(stack, leaf.tok.kids().len());
        let meaning = self.leaf_means(leaf, first, second);
        stack.push(meaning)?;
        Ok(())
    }

    fn leaf_means(&self, leaf: Leaf, first: Option<Meaning>, second: Option<Meaning>) -> Meaning
        ensures { result ≡ leaf_means self.now.program.now.objects (sight (state self.now)) leaf first second }
    {
        let v = self.kid(first);
        let w = self.kid(second);
        self.token_means(leaf.tok, leaf.att, v, w)
    }

    // What a token stands for over its kids' values.
    fn token_means(&self, tok: Tok, att: Att, v: Value, w: Value) -> Meaning
        ensures { result ≡ token_means self.now.program.now.objects (sight (state self.now)) tok att v w }
    {
        match tok {
            Tok::Zero => Meaning::Of(Value::Number(0)),
            Tok::One => Meaning::Of(Value::Number(1)),
            Tok::Two => Meaning::Of(Value::Number(2)),
            Tok::Four => Meaning::Of(Value::Number(4)),
            Tok::Eight => Meaning::Of(Value::Number(8)),
            Tok::Const => match att {
                Att::Number(number) => Meaning::Of(Value::Number(number)),
                _ => Meaning::Of(Value::Wild),
            },
            Tok::Gaddr => match att {
                Att::Object { object, offset } => Meaning::Of(self.address_of(object, offset)),
                _ => Meaning::Of(Value::Wild),
            },
            Tok::Loc => match att {
                Att::Slot(number) => Meaning::Local(number),
                _ => Meaning::Of(Value::Wild),
            },
            Tok::Arg => match att {
                Att::Slot(number) => Meaning::Argument(number),
                _ => Meaning::Of(Value::Wild),
            },
            Tok::IndirB => at(Size::Byte, v),
            Tok::IndirW => at(Size::Word, v),
            Tok::IndirL => at(Size::Long, v),
            Tok::Plus | Tok::Minus | Tok::Mul | Tok::Div | Tok::Mod => two(tok, v, w),
            Tok::And | Tok::Or | Tok::Xor | Tok::Lsh | Tok::Rsh => two(tok, v, w),
            Tok::Neg | Tok::Com | Tok::Sxb | Tok::Zxb => one(tok, v),
            Tok::Sxw | Tok::Zxw | Tok::Ncb | Tok::Ncw => one(tok, v),
            _ => Meaning::Of(Value::Wild),
        }
    }

    fn address_of(&self, object: u32, offset: u32) -> Value
        ensures { result ≡ address_of (slice_get self.now.program.now.objects object) offset }
    {
        match self.program.objects.as_slice().get(object as usize) {
            Some(object) => Value::Number(w32::add(object.address, offset)),
            None => Value::Wild,
        }
    }

    /// The value of a kid, if there is such a kid.
    pub(crate) fn kid(&self, meaning: Option<Meaning>) -> Value
        ensures { result ≡ kid (sight (state self.now)) meaning }
    {
        match meaning {
            Some(meaning) => self.read(meaning),
            None => Value::Wild,
        }
    }

    fn read(&self, meaning: Meaning) -> Value
        ensures { result ≡ read (sight (state self.now)) meaning }
    {
        match meaning {
            Meaning::Of(value) => value,
            Meaning::Local(number) => match self.running.locals.get(number as usize) {
                Some(Some(value)) => Value::Number(*value),
                _ => Value::Wild,
            },
            Meaning::Argument(number) => {
                match self
                    .running
                    .arguments
                    .get(number.saturating_sub(1) as usize)
                {
                    Some(value) => Value::Number(*value),
                    None => Value::Wild,
                }
            }
            Meaning::Memory(size, address) => match fetch(&self.area, size, address) {
                Some(value) => Value::Number(value),
                None => Value::Wild,
            },
        }
    }
}

/// What the first kids stand for, of so many that are taken off the stack.
pub(crate) fn take_kids(
    stack: &mut Vec<Meaning>,
    count: usize,
) -> (Option<Meaning>, Option<Meaning>)
    requires { count ≤ 2 }
    ensures first { result.0 ≡ kid_at (reverse stack.old.items) count 0 }
    ensures second { result.1 ≡ kid_at (reverse stack.old.items) count 1 }
    ensures left { reverse stack.new.items ≡ drop count (reverse stack.old.items) }
{
    if count == 0 {
        return (None, None);
    }
    let first = stack.pop();
    if count == 1 {
        return (first, None);
    }
    let second = stack.pop();
    (first, second)
}

fn at(size: Size, value: Value) -> Meaning
    ensures { result ≡ at size value }
{
    match value {
        Value::Number(address) => Meaning::Memory(size, address),
        fault => Meaning::Of(fault),
    }
}

fn one(tok: Tok, v: Value) -> Meaning
    ensures { result ≡ one v (converted tok) }
{
    match v {
        Value::Number(x) => Meaning::Of(converted(tok, x)),
        fault => Meaning::Of(fault),
    }
}

fn two(tok: Tok, v: Value, w: Value) -> Meaning
    ensures { result ≡ two v w (operated tok) }
{
    match (v, w) {
        (Value::Number(x), Value::Number(y)) => Meaning::Of(operated(tok, x, y)),
        (Value::Number(_), fault) => Meaning::Of(fault),
        (fault, _) => Meaning::Of(fault),
    }
}
