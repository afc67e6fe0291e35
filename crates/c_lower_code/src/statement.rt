// Statements. Temporaries begin anew at each full expression.
ghost use Rattle.std.specs.Prelude.{◌≡◌, suc, IfOk, map};
ghost use Rattle.c_types.specs.Typed.{expression_of};
ghost use Rattle.c_program.specs.Statements.{act, acts, declaration, optional_expression, NoActions, WhileOf, DoOf, IfOf};
ghost use Rattle.c_lower_scheme.specs.Trees as mirror;
ghost use Rattle.c_lower_scheme.specs.Parts as parts;
ghost use Rattle.c_lower_scheme.specs.Statements as statements;
ghost use Rattle.c_lower_parts.specs.Views.{done, destination};
ghost use Rattle.c_lower_code.specs.Declarations.{one_declared};

use crate::lowerer::Lowerer;
use c_lower_parts::flow::{
    begin_of, cleared, ever_done, for_done, if_done, if_else_done, jump, loop_done,
    stored_in_block, turns_done, two_done, while_done, zeros_in_block,
};
use c_lower_parts::mention::mentions;
use c_lower_parts::part::{
    Destination, Emitted, Exits, Free, When, after, delivered, leaf, nothing,
};
use c_lower_parts::tree::Tree;
use c_lower_parts::zeros::is_zeroed;
use c_program::{Action, Declaration};
use c_types::Expression;
use c_types::constant::constant;
use gg_base::NoMemory;

// Where a statement goes that is no more than a `break` or `continue`, also alone in a block.
#[cycle(going)]
fn going(a: &Action, exits: Exits) -> Option<u32>
    ensures { result ≡ statements.going (act a.now) exits.broken exits.onward }
{
    match a {
        Action::Break => Some(exits.broken),
        Action::Continue => Some(exits.onward),
        Action::Block(all) => going_alone(all, exits),
        _ => None,
    }
}

// Where the one statement of a block goes.
#[cycle(going)]
fn going_alone(all: &[Action], exits: Exits) -> Option<u32>
    ensures { result ≡ statements.going_alone (acts all.now) exits.broken exits.onward }
{
    match all {
        [a] => going(a, exits),
        _ => None,
    }
}

impl Lowerer {
    // What is free where a full expression begins, from a label on.
    fn anew(self, l: u32) -> Free
        ensures temps { result.temps ≡ self.frame.first }
        ensures labels { result.labels ≡ l }
    {
        Free {
            temps: self.frame.first,
            labels: l,
        }
    }

    /// No items.
    pub(crate) fn nothing(self, l: u32) -> Emitted
        ensures { done result ≡ parts.nothing self.frame.first l }
    {
        nothing(self.frame.alloc, self.anew(l))
    }

    // A condition that falls through where it holds, and else goes to a label.
    fn unless(self, c: &Expression, to: u32, l: u32) -> Result<Emitted, NoMemory>
        ensures { IfOk result (λ r. done r ≡ statements.unless self.frame.locals self.frame.functions self.frame.first
            (destination self.frame.out) (expression_of c.now) to l) }
    {
        self.branch(c, When { sense: false, to }, self.anew(l))
    }

    // A condition that goes to a label where it holds.
    fn when(self, c: &Expression, to: u32, l: u32) -> Result<Emitted, NoMemory>
        ensures { IfOk result (λ r. done r ≡ statements.when self.frame.locals self.frame.functions self.frame.first
            (destination self.frame.out) (expression_of c.now) to l) }
    {
        self.branch(c, When { sense: true, to }, self.anew(l))
    }

    // What is evaluated for its effect, if there is something.
    fn effect(self, e: &Option<Expression>, l: u32) -> Result<Emitted, NoMemory>
        ensures { IfOk result (λ r. done r ≡ statements.effect self.frame.locals self.frame.functions self.frame.first
            (destination self.frame.out) (optional_expression e.now) l) }
    {
        match e {
            None => Ok(self.nothing(l)),
            Some(e) => self.discard(e, self.anew(l)),
        }
    }

    // A function answers 0.
    pub(crate) fn answering_zero(self, l: u32) -> Result<Emitted, NoMemory>
        ensures { IfOk result (λ r. done r ≡ parts.delivered (destination self.frame.out)
            (parts.due (mirror.Num 0) self.frame.first l)) }
    {
        let zero = leaf(self.frame.alloc, Tree::Number(0), self.anew(l))?;
        delivered(self.frame.alloc, self.frame.out, zero)
    }

    // A `return`.
    fn returning(self, e: &Option<Expression>, l: u32) -> Result<Emitted, NoMemory>
        ensures { IfOk result (λ r. done r ≡ statements.returning self.frame.locals self.frame.functions self.frame.first
            (destination self.frame.out) (optional_expression e.now) l) }
    {
        match e {
            None => self.answering_zero(l),
            Some(e) => self.deliver(self.frame.out, e, self.anew(l)),
        }
    }

    // One declaration, before others and the statements behind them.
    fn one_declared(
        self,
        d: &Declaration,
        others: &[Declaration],
        rest: &[Action],
        l: u32,
    ) -> Result<Emitted, NoMemory>
        ensures { IfOk result (λ r. done r ≡ one_declared self.frame.locals self.frame.functions self.frame.first
            (declaration d.now) (map declaration others.now) (acts rest.now) l) }
    {
        let frame = self.frame;
        match d {
            Declaration::Keep(_) => Ok(self.nothing(l)),
            Declaration::Clear(n) => cleared(frame, is_zeroed(*n, others, rest), *n, l),
            Declaration::Begin(n, e) => begin_of(
                frame.alloc,
                mentions(*n, e),
                *n,
                self.deliver(Destination::Local(*n), e, self.anew(l))?,
            ),
            Declaration::Store(of, offset, e) => {
                stored_in_block(frame, *of, *offset, self.value(e, self.anew(l))?)
            }
            Declaration::Zeros(of, offset, count) => zeros_in_block(frame, *of, *offset, *count, l),
        }
    }

    // Declarations, in order, before the statements behind them.
    #[tactic(auto, using(crate::proofs::Rows::declare_begins, crate::proofs::Rows::declare_goes, crate::proofs::Rows::nothing_behind))]
    fn declare(self, ds: &[Declaration], rest: &[Action], l: u32) -> Result<Emitted, NoMemory>
        ensures { IfOk result (λ r. done r ≡ statements.declare self.frame.locals self.frame.functions self.frame.first
            (destination self.frame.out) (map declaration ds.now) (acts rest.now) l) }
    {
        let mut whole = self.nothing(l);
        for (i, d) in ds.iter().enumerate() {
            let one = self.one_declared(d, &ds[i + 1..], rest, whole.free.labels)?;
            whole = two_done(whole, one)?;
        }
        Ok(whole)
    }

    // The test, the body and the step of a `for`, behind what is done first: a test stands in front where it is a constant.
    #[cycle(statement)]
    fn for_of(
        self,
        l: u32,
        c: &Option<Expression>,
        e: &Option<Expression>,
        body: &Action,
    ) -> Result<Emitted, NoMemory>
        ensures { IfOk result (λ r. done r ≡ statements.for_of self.frame.locals self.frame.functions self.frame.first
            (destination self.frame.out) l (optional_expression c.now) (optional_expression e.now)
            (statements.lower self.frame.locals self.frame.functions self.frame.first (destination self.frame.out)
            (act body.now) NoActions (suc (suc l)) (suc l))) }
    {
        let onward = after(l)?;
        let broken = after(onward)?;
        let exits = Exits { broken, onward };
        let test = after(broken)?;
        match c {
            None => {
                let a = self.statement(body, &[], exits, test)?;
                let s = self.effect(e, a.free.labels)?;
                ever_done(self.frame.alloc, l, a, s)
            }
            Some(c) => match constant(c) {
                Some(_) => {
                    let p = self.unless(c, broken, test)?;
                    let a = self.statement(body, &[], exits, p.free.labels)?;
                    let s = self.effect(e, a.free.labels)?;
                    for_done(self.frame.alloc, l, p, a, s)
                }
                None => {
                    let a = self.statement(body, &[], exits, after(test)?)?;
                    let s = self.effect(e, a.free.labels)?;
                    let p = self.when(c, l, s.free.labels)?;
                    turns_done(self.frame.alloc, l, a, s, p)
                }
            },
        }
    }

    // A `while`: its test stands in front where it is a constant, and else behind the body.
    #[cycle(statement)]
    fn while_of(self, body: &Action, c: &Expression, l: u32) -> Result<Emitted, NoMemory>
        ensures { IfOk result (λ r. done r ≡ statements.lower self.frame.locals self.frame.functions self.frame.first
            (destination self.frame.out) (WhileOf (expression_of c.now) (act body.now)) NoActions 0 0 l) }
    {
        let onward = after(l)?;
        let end = after(onward)?;
        match constant(c) {
            Some(_) => {
                let p = self.unless(c, onward, end)?;
                let exits = Exits {
                    broken: onward,
                    onward: l,
                };
                let a = self.statement(body, &[], exits, p.free.labels)?;
                while_done(self.frame.alloc, l, p, a)
            }
            None => {
                let exits = Exits {
                    broken: end,
                    onward,
                };
                let a = self.statement(body, &[], exits, after(end)?)?;
                let p = self.when(c, l, a.free.labels)?;
                loop_done(self.frame.alloc, onward, l, a, p)
            }
        }
    }

    // A `do`.
    #[cycle(statement)]
    fn do_of(self, body: &Action, c: &Expression, l: u32) -> Result<Emitted, NoMemory>
        ensures { IfOk result (λ r. done r ≡ statements.lower self.frame.locals self.frame.functions self.frame.first
            (destination self.frame.out) (DoOf (act body.now) (expression_of c.now)) NoActions 0 0 l) }
    {
        let onward = after(l)?;
        let broken = after(onward)?;
        let a = self.statement(body, &[], Exits { broken, onward }, after(broken)?)?;
        let p = self.when(c, l, a.free.labels)?;
        loop_done(self.frame.alloc, l, l, a, p)
    }

    // An `if` without an `else`.
    #[cycle(statement)]
    fn if_of(self, a: &Action, c: &Expression, exits: Exits, l: u32) -> Result<Emitted, NoMemory>
        ensures { IfOk result (λ r. done r ≡ statements.lower self.frame.locals self.frame.functions self.frame.first
            (destination self.frame.out) (IfOf (expression_of c.now) (act a.now)) NoActions exits.broken exits.onward l) }
    {
        match going(a, exits) {
            Some(to) => self.when(c, to, l),
            None => {
                let p = self.unless(c, l, after(l)?)?;
                let a = self.statement(a, &[], exits, p.free.labels)?;
                if_done(l, p, a)
            }
        }
    }

    /// A statement before the others of its block, from a first free label on.
    #[cycle(statement)]
    pub(crate) fn statement(
        self,
        a: &Action,
        rest: &[Action],
        exits: Exits,
        l: u32,
    ) -> Result<Emitted, NoMemory>
        ensures { IfOk result (λ r. done r ≡ statements.lower self.frame.locals self.frame.functions self.frame.first
            (destination self.frame.out) (act a.now) (acts rest.now) exits.broken exits.onward l) }
    {
        match a {
            Action::Declare(ds) => self.declare(ds, rest, l),
            Action::Block(all) => self.row(all, exits, l),
            Action::Evaluate(e) => self.discard(e, self.anew(l)),
            Action::Break => jump(self.frame, exits.broken, l),
            Action::Continue => jump(self.frame, exits.onward, l),
            Action::Return(e) => self.returning(e, l),
            Action::If(c, a) => self.if_of(a, c, exits, l),
            Action::IfElse(c, a, b) => {
                let p = self.unless(c, l, after(after(l)?)?)?;
                let q = self.statement(a, &[], exits, p.free.labels)?;
                let r = self.statement(b, &[], exits, q.free.labels)?;
                if_else_done(l, p, q, r)
            }
            Action::While(c, a) => self.while_of(a, c, l),
            Action::Do(a, c) => self.do_of(a, c, l),
            Action::For(i, c, e, a) => {
                let p = self.effect(i, l)?;
                let q = self.for_of(p.free.labels, c, e, a)?;
                two_done(p, q)
            }
        }
    }

    /// Statements, in order.
    #[cycle(statement)]
    pub(crate) fn row(self, all: &[Action], exits: Exits, l: u32) -> Result<Emitted, NoMemory>
        ensures { IfOk result (λ r. done r ≡ statements.lower_row self.frame.locals self.frame.functions self.frame.first
            (destination self.frame.out) (acts all.now) exits.broken exits.onward l) }
    {
        let mut whole = self.nothing(l);
        for (i, a) in all.iter().enumerate() {
            let one = self.statement(a, &all[i + 1..], exits, whole.free.labels)?;
            whole = two_done(whole, one)?;
        }
        Ok(whole)
    }
}
