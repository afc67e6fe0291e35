// Expressions, in the four ways in which they are lowered.
ghost use Rattle.std.specs.Prelude.{◌≡◌, suc, IfOk, true, false};
ghost use Rattle.c_types.specs.Typed.{expressions_of};
ghost use Rattle.c_lower_scheme.specs.Parts as parts;
ghost use Rattle.c_lower_scheme.specs.Places.{integer_of};
ghost use Rattle.c_lower_scheme.specs.Trees as mirror;
ghost use Rattle.c_lower_scheme.specs.Conditions as conditions;
ghost use Rattle.c_lower_scheme.specs.Values as values;
ghost use Rattle.c_lower_scheme.specs.Assignments as assignments;
ghost use Rattle.c_lower_scheme.specs.Expressions as expressions;
ghost use Rattle.c_lower_parts.specs.Views.{low, two, found, ready, passing, done, destination};
ghost use Rattle.c_lower_parts.specs.Changes.{applied};
ghost use Rattle.c_lower_code.specs.Lowerings.{way_of, seek_of};

use crate::lowerer::Lowerer;
use c_lower_parts::change::{
    Change, fill_drop, fill_low, local_of, step_before, step_ready, store_drop, store_low,
    update_ready,
};
use c_lower_parts::condition::{
    choose_deliver, choose_drop, choose_low, compare, dropped, sensed, test, truth_of,
};
use c_lower_parts::operation::{
    advance_by_low, advance_low, apart_low, arithmetic_low, complemented_low, fitted_low,
    negated_low, retreat_low,
};
use c_lower_parts::order::{assign_ready, join};
use c_lower_parts::part::{
    Assignable, Destination, Emitted, Free, Located, Lowered, Pair, Passing, When, delivered,
    labelled, leaf, then_done, with_done,
};
use c_lower_parts::passing::{
    called_deliver, called_drop, called_low, callee_number, no_arguments, others, pass_on,
    passed_as,
};
use c_lower_parts::place::{address_low, array_low, located, pointed, read_low};
use c_lower_parts::tree::{Tree, integer_of};
use c_types::{CType, Direction, Expression, Integer, Moment, Place, UnaryOperator};
use gg_base::{NoMemory, Rel};

impl Lowerer {
    /// A place, from what is free on.
    #[cycle(expression)]
    pub(crate) fn seek(self, place: &Place, free: Free) -> Result<Located, NoMemory>
        ensures { IfOk result (λ r. found r ≡ seek_of self.frame place.now free.temps free.labels) }
    {
        match place {
            Place::Variable(of, v) => located(self.frame, *of, *v, free),
            Place::Indirection(of, e) => Ok(pointed(*of, self.value(e, free)?)),
            Place::Index(of, sum) => Ok(pointed(*of, self.value(sum, free)?)),
        }
    }

    // Two values that are due in turn.
    #[cycle(expression)]
    fn joined(self, a: &Expression, b: &Expression, free: Free) -> Result<Pair, NoMemory>
        ensures { IfOk result (λ r. two r ≡ values.joined self.frame.locals self.frame.functions
            (way_of self.frame a.now) (way_of self.frame b.now) free.temps free.labels) }
    {
        let p = self.value(a, free)?;
        let q = self.value(b, p.free)?;
        join(self.frame, p, q)
    }

    // A relation of two values as a condition.
    #[cycle(expression)]
    fn relation(
        self,
        r: Rel,
        a: &Expression,
        b: &Expression,
        to: u32,
        free: Free,
    ) -> Result<Emitted, NoMemory>
        ensures { IfOk result (λ d. done d ≡ conditions.compare r to (values.joined self.frame.locals self.frame.functions
            (way_of self.frame a.now) (way_of self.frame b.now) free.temps free.labels)) }
    {
        compare(r, to, self.joined(a, b, free)?)
    }

    // Both sides of `&&`, where stop is false, or of `||`, where it is true.
    #[cycle(expression)]
    fn chain(
        self,
        stop: bool,
        a: &Expression,
        b: &Expression,
        when: When,
        free: Free,
    ) -> Result<Emitted, NoMemory>
        ensures { IfOk result (λ d. done d ≡ conditions.chain stop (way_of self.frame a.now) (way_of self.frame b.now)
            when.sense when.to free.temps free.labels) }
    {
        let inner = free.past_label()?;
        if stop == when.sense {
            let to = when.to;
            let p = self.branch(a, When { sense: stop, to }, inner)?;
            let q = self.branch(b, when, p.free)?;
            then_done(p, q)
        } else {
            let to = free.labels;
            let p = self.branch(a, When { sense: stop, to }, inner)?;
            let q = self.branch(b, when, p.free)?;
            labelled(to, then_done(p, q)?)
        }
    }

    // The effect of both sides.
    #[cycle(expression)]
    fn drop_chain(
        self,
        a: &Expression,
        stop: bool,
        b: &Expression,
        free: Free,
    ) -> Result<Emitted, NoMemory>
        ensures { IfOk result (λ d. done d ≡ conditions.chain_drop (way_of self.frame a.now) stop
            (way_of self.frame b.now) free.temps free.labels) }
    {
        let to = free.labels;
        let p = self.branch(a, When { sense: stop, to }, free.past_label()?)?;
        let q = self.discard(b, p.free)?;
        labelled(to, then_done(p, q)?)
    }

    // The effects of two expressions.
    #[cycle(expression)]
    fn drop_two(self, a: &Expression, b: &Expression, free: Free) -> Result<Emitted, NoMemory>
        ensures { IfOk result (λ d. done d ≡ conditions.drop_two (way_of self.frame a.now) (way_of self.frame b.now)
            free.temps free.labels) }
    {
        let p = self.discard(a, free)?;
        let q = self.discard(b, p.free)?;
        then_done(p, q)
    }

    // A place and what it becomes by a value.
    #[cycle(expression)]
    fn updated(
        self,
        change: Change,
        place: &Place,
        e: &Expression,
        free: Free,
    ) -> Result<Assignable, NoMemory>
        ensures { IfOk result (λ r. ready r ≡ assignments.updated self.frame.locals self.frame.functions (applied change)
            (seek_of self.frame place.now free.temps free.labels) (way_of self.frame e.now).low) }
    {
        let p = self.seek(place, free)?;
        let q = self.value(e, p.free)?;
        update_ready(self.frame, change, p, q)
    }

    // A compound assignment for its value.
    #[cycle(expression)]
    fn changed(
        self,
        change: Change,
        place: &Place,
        e: &Expression,
        free: Free,
    ) -> Result<Lowered, NoMemory>
        ensures { IfOk result (λ r. low r ≡ assignments.store_low (assignments.updated self.frame.locals self.frame.functions
            (applied change) (seek_of self.frame place.now free.temps free.labels) (way_of self.frame e.now).low)) }
    {
        store_low(self.frame.alloc, self.updated(change, place, e, free)?)
    }

    // A compound assignment for its effect.
    #[cycle(expression)]
    fn drop_changed(
        self,
        change: Change,
        place: &Place,
        e: &Expression,
        free: Free,
    ) -> Result<Emitted, NoMemory>
        ensures { IfOk result (λ r. done r ≡ assignments.store_drop (assignments.updated self.frame.locals self.frame.functions
            (applied change) (seek_of self.frame place.now free.temps free.labels) (way_of self.frame e.now).low)) }
    {
        store_drop(self.frame.alloc, self.updated(change, place, e, free)?)
    }

    // An assignment for its value.
    #[cycle(expression)]
    fn assign_value(self, place: &Place, e: &Expression, free: Free) -> Result<Lowered, NoMemory>
        ensures { IfOk result (λ r. low r ≡ assignments.assign_low self.frame.locals self.frame.functions
            (assignments.local_of self.frame.locals self.frame.functions (seek_of self.frame place.now free.temps free.labels))
            (seek_of self.frame place.now free.temps free.labels) (way_of self.frame e.now)) }
    {
        let p = self.seek(place, free)?;
        match local_of(self.frame, &p) {
            Some(n) => {
                let q = self.deliver(Destination::Local(n), e, p.free)?;
                fill_low(self.frame.alloc, n, p, q)
            }
            None => {
                let q = self.value(e, p.free)?;
                store_low(self.frame.alloc, assign_ready(self.frame, true, p, q)?)
            }
        }
    }

    // An assignment for its effect.
    #[cycle(expression)]
    fn assign_effect(self, place: &Place, e: &Expression, free: Free) -> Result<Emitted, NoMemory>
        ensures { IfOk result (λ r. done r ≡ assignments.assign_drop self.frame.locals self.frame.functions
            (assignments.local_of self.frame.locals self.frame.functions (seek_of self.frame place.now free.temps free.labels))
            (seek_of self.frame place.now free.temps free.labels) (way_of self.frame e.now)) }
    {
        let p = self.seek(place, free)?;
        match local_of(self.frame, &p) {
            Some(n) => {
                let q = self.deliver(Destination::Local(n), e, p.free)?;
                fill_drop(p, q)
            }
            None => {
                let q = self.value(e, p.free)?;
                store_drop(self.frame.alloc, assign_ready(self.frame, false, p, q)?)
            }
        }
    }

    // The arguments of a call, whose parameters have these types.
    #[cycle(expression)]
    fn pass(self, es: &[Expression], to: &[CType], free: Free) -> Result<Passing, NoMemory>
        ensures { IfOk result (λ r. passing r ≡ expressions.pass self.frame.locals self.frame.functions
            (expressions_of es.now) to.now free.temps free.labels) }
    {
        match es.split_first() {
            None => Ok(no_arguments(self.frame.alloc, free)),
            Some((e, rest)) => {
                let p = passed_as(self.frame.alloc, to, self.value(e, free)?)?;
                let q = self.pass(rest, others(to), p.free)?;
                pass_on(self.frame, p, q)
            }
        }
    }

    // The value of a choice.
    #[cycle(expression)]
    fn chosen(
        self,
        c: &Expression,
        a: &Expression,
        b: &Expression,
        free: Free,
    ) -> Result<Lowered, NoMemory>
        ensures { IfOk result (λ r. low r ≡ (conditions.choose (way_of self.frame c.now) (way_of self.frame a.now)
            (way_of self.frame b.now)).low free.temps free.labels) }
    {
        let inner = free.past_temp()?.past_two_labels()?;
        let to = free.labels;
        let p = self.branch(c, When { sense: false, to }, inner)?;
        let q = self.value(a, p.free)?;
        let r = self.value(b, q.free)?;
        choose_low(self.frame.alloc, free, p, q, r)
    }

    // The effect of a choice.
    #[cycle(expression)]
    fn drop_chosen(
        self,
        c: &Expression,
        a: &Expression,
        b: &Expression,
        free: Free,
    ) -> Result<Emitted, NoMemory>
        ensures { IfOk result (λ r. done r ≡ (conditions.choose (way_of self.frame c.now) (way_of self.frame a.now)
            (way_of self.frame b.now)).drop free.temps free.labels) }
    {
        let to = free.labels;
        let p = self.branch(c, When { sense: false, to }, free.past_two_labels()?)?;
        let q = self.discard(a, p.free)?;
        let r = self.discard(b, q.free)?;
        choose_drop(to, p, q, r)
    }

    // A step's value.
    fn step_value(self, moment: Moment, by: Direction, p: Located) -> Result<Lowered, NoMemory>
        ensures { IfOk result (λ r. low r ≡ assignments.step_low self.frame.locals self.frame.functions moment by (found p)) }
    {
        match moment {
            Moment::Before => step_before(self.frame, by, p),
            Moment::After => store_low(self.frame.alloc, step_ready(self.frame, by, p)?),
        }
    }

    // The truth of the opposite.
    #[cycle(expression)]
    fn negation(self, e: &Expression, free: Free) -> Result<Lowered, NoMemory>
        ensures { IfOk result (λ r. low r ≡ conditions.truth_of free.temps free.labels
            ((way_of self.frame e.now).branch true free.labels (suc free.temps) (suc free.labels))) }
    {
        let to = free.labels;
        let p = self.branch(e, When { sense: true, to }, free.past_both()?)?;
        truth_of(self.frame.alloc, free, p)
    }

    // The value of an operator on one operand.
    #[cycle(expression)]
    fn unary(self, op: UnaryOperator, e: &Expression, free: Free) -> Result<Lowered, NoMemory>
        ensures { IfOk result (λ r. low r ≡ (expressions.unary self.frame.locals self.frame.functions op
            (way_of self.frame e.now)).low free.temps free.labels) }
    {
        match op {
            UnaryOperator::Plus => self.value(e, free),
            UnaryOperator::Minus => negated_low(self.frame.alloc, self.value(e, free)?),
            UnaryOperator::Complement => complemented_low(self.frame.alloc, self.value(e, free)?),
            UnaryOperator::Not => self.negation(e, free),
        }
    }

    // The truth of a relation.
    #[cycle(expression)]
    fn compared(
        self,
        r: Rel,
        a: &Expression,
        b: &Expression,
        free: Free,
    ) -> Result<Lowered, NoMemory>
        ensures { IfOk result (λ d. low d ≡ conditions.truth_of free.temps free.labels
            (conditions.compare (mirror.sensed false r) free.labels
            (values.joined self.frame.locals self.frame.functions (way_of self.frame a.now) (way_of self.frame b.now)
            (suc free.temps) (suc free.labels)))) }
    {
        let p = self.relation(sensed(false, r), a, b, free.labels, free.past_both()?)?;
        truth_of(self.frame.alloc, free, p)
    }

    // The truth of both sides.
    #[cycle(expression)]
    fn chained(
        self,
        stop: bool,
        a: &Expression,
        b: &Expression,
        free: Free,
    ) -> Result<Lowered, NoMemory>
        ensures { IfOk result (λ d. low d ≡ conditions.truth_of free.temps free.labels (conditions.chain stop (way_of self.frame a.now)
            (way_of self.frame b.now) false free.labels (suc free.temps) (suc free.labels))) }
    {
        let to = free.labels;
        let p = self.chain(stop, a, b, When { sense: false, to }, free.past_both()?)?;
        truth_of(self.frame.alloc, free, p)
    }

    /// An expression for its value, from what is free on.
    #[cycle(expression)]
    pub(crate) fn value(self, e: &Expression, free: Free) -> Result<Lowered, NoMemory>
        ensures { IfOk result (λ r. low r ≡ (way_of self.frame e.now).low free.temps free.labels) }
    {
        let alloc = self.frame.alloc;
        match e {
            Expression::Number(n) => leaf(alloc, Tree::Number(*n), free),
            Expression::Literal(n, _) => leaf(alloc, Tree::Object(*n), free),
            Expression::Array(_, v, _) => array_low(self.frame, *v, free),
            Expression::Read(p) => read_low(alloc, self.seek(p, free)?),
            Expression::SizeofExpression(n, _) => leaf(alloc, Tree::Number(*n), free),
            Expression::SizeofType(n) => leaf(alloc, Tree::Number(*n), free),
            Expression::Address(_, p) => address_low(alloc, self.seek(p, free)?),
            Expression::Call(_, f, to, es) => {
                called_low(
                    alloc,
                    callee_number(self.frame.functions, *f)?,
                    self.pass(es, to.as_slice(), free)?,
                )
            }
            Expression::Step(moment, by, p) => self.step_value(*moment, *by, self.seek(p, free)?),
            Expression::Unary(op, e) => self.unary(*op, e, free),
            Expression::Cast(of, e) => fitted_low(alloc, *of, self.value(e, free)?),
            Expression::Convert(of, e) => fitted_low(alloc, *of, self.value(e, free)?),
            Expression::Arithmetic(op, a, b) => arithmetic_low(
                alloc,
                *op,
                self.joined(a, b, free)?,
            ),
            Expression::Compare(r, a, b) => self.compared(*r, a, b, free),
            Expression::AndAnd(a, b) => self.chained(false, a, b, free),
            Expression::OrOr(a, b) => self.chained(true, a, b, free),
            Expression::Advance(of, a, b) => advance_low(alloc, *of, self.joined(a, b, free)?),
            Expression::AdvanceBy(of, a, b) => advance_by_low(alloc, *of, self.joined(a, b, free)?),
            Expression::Retreat(of, a, b) => retreat_low(alloc, *of, self.joined(a, b, free)?),
            Expression::Distance(of, a, b) => apart_low(alloc, *of, self.joined(a, b, free)?),
            Expression::Choice(_, c, a, b) => self.chosen(c, a, b, free),
            Expression::Assign(p, e) => self.assign_value(p, e, free),
            Expression::ArithmeticAssign(op, p, e) => self.changed(
                Change::Arithmetic(*op),
                p,
                e,
                free,
            ),
            Expression::AdvanceAssign(p, e) => self.changed(Change::Advance, p, e, free),
            Expression::RetreatAssign(p, e) => self.changed(Change::Retreat, p, e, free),
            Expression::Comma(_, a, b) => self.comma(a, b, free),
        }
    }

    // The effect of one expression, and then the value of another.
    #[cycle(expression)]
    fn comma(self, a: &Expression, b: &Expression, free: Free) -> Result<Lowered, NoMemory>
        ensures { IfOk result (λ r. low r ≡ (conditions.comma (way_of self.frame a.now) (way_of self.frame b.now)).low
            free.temps free.labels) }
    {
        let p = self.discard(a, free)?;
        let q = self.value(b, p.free)?;
        with_done(p, q)
    }

    // A value as a condition.
    #[cycle(expression)]
    fn tested(self, e: &Expression, when: When, free: Free) -> Result<Emitted, NoMemory>
        ensures { IfOk result (λ r. done r ≡ conditions.test when.sense when.to ((way_of self.frame e.now).low free.temps free.labels)) }
    {
        test(when, self.value(e, free)?)
    }

    // An operator on one operand as a condition.
    #[cycle(expression)]
    fn unary_branch(
        self,
        op: UnaryOperator,
        e: &Expression,
        when: When,
        free: Free,
    ) -> Result<Emitted, NoMemory>
        ensures { IfOk result (λ r. done r ≡ (expressions.unary self.frame.locals self.frame.functions op
            (way_of self.frame e.now)).branch when.sense when.to free.temps free.labels) }
    {
        match op {
            UnaryOperator::Plus => test(when, self.unary(UnaryOperator::Plus, e, free)?),
            UnaryOperator::Minus => test(when, self.unary(UnaryOperator::Minus, e, free)?),
            UnaryOperator::Complement => test(
                when,
                self.unary(UnaryOperator::Complement, e, free)?,
            ),
            UnaryOperator::Not => self.branch(
                e,
                When {
                    sense: !when.sense,
                    to: when.to,
                },
                free,
            ),
        }
    }

    // The effect of one expression, and then another as a condition.
    #[cycle(expression)]
    fn comma_branch(
        self,
        a: &Expression,
        b: &Expression,
        when: When,
        free: Free,
    ) -> Result<Emitted, NoMemory>
        ensures { IfOk result (λ r. done r ≡ (conditions.comma (way_of self.frame a.now) (way_of self.frame b.now)).branch
            when.sense when.to free.temps free.labels) }
    {
        let p = self.discard(a, free)?;
        let q = self.branch(b, when, p.free)?;
        then_done(p, q)
    }

    /// An expression as a condition: the items go to a label where its truth is the sense, and else fall through.
    #[cycle(expression)]
    pub(crate) fn branch(self, e: &Expression, when: When, free: Free) -> Result<Emitted, NoMemory>
        ensures { IfOk result (λ r. done r ≡ (way_of self.frame e.now).branch when.sense when.to free.temps free.labels) }
    {
        match e {
            Expression::Unary(op, a) => self.unary_branch(*op, a, when, free),
            Expression::Compare(r, a, b) => self.relation(
                sensed(when.sense, *r),
                a,
                b,
                when.to,
                free,
            ),
            Expression::AndAnd(a, b) => self.chain(false, a, b, when, free),
            Expression::OrOr(a, b) => self.chain(true, a, b, when, free),
            Expression::Comma(_, a, b) => self.comma_branch(a, b, when, free),
            Expression::Number(_) => self.tested(e, when, free),
            Expression::Literal(_, _) => self.tested(e, when, free),
            Expression::Array(_, _, _) => self.tested(e, when, free),
            Expression::Read(_) => self.tested(e, when, free),
            Expression::SizeofExpression(_, _) => self.tested(e, when, free),
            Expression::SizeofType(_) => self.tested(e, when, free),
            Expression::Address(_, _) => self.tested(e, when, free),
            Expression::Call(_, _, _, _) => self.tested(e, when, free),
            Expression::Step(_, _, _) => self.tested(e, when, free),
            Expression::Cast(_, _) => self.tested(e, when, free),
            Expression::Convert(_, _) => self.tested(e, when, free),
            Expression::Arithmetic(_, _, _) => self.tested(e, when, free),
            Expression::Advance(_, _, _) => self.tested(e, when, free),
            Expression::AdvanceBy(_, _, _) => self.tested(e, when, free),
            Expression::Retreat(_, _, _) => self.tested(e, when, free),
            Expression::Distance(_, _, _) => self.tested(e, when, free),
            Expression::Choice(_, _, _, _) => self.tested(e, when, free),
            Expression::Assign(_, _) => self.tested(e, when, free),
            Expression::ArithmeticAssign(_, _, _) => self.tested(e, when, free),
            Expression::AdvanceAssign(_, _) => self.tested(e, when, free),
            Expression::RetreatAssign(_, _) => self.tested(e, when, free),
        }
    }

    // A value that goes to its destination by a root of its own.
    #[cycle(expression)]
    fn kept(self, to: Destination, e: &Expression, free: Free) -> Result<Emitted, NoMemory>
        ensures { IfOk result (λ r. done r ≡ parts.delivered (destination to) ((way_of self.frame e.now).low free.temps free.labels)) }
    {
        delivered(self.frame.alloc, to, self.value(e, free)?)
    }

    // A conversion at its destination: a type as wide as a longword leaves it out.
    #[cycle(expression)]
    fn deliver_as(
        self,
        to: Destination,
        of: CType,
        e: &Expression,
        free: Free,
    ) -> Result<Emitted, NoMemory>
        ensures { IfOk result (λ r. done r ≡ conditions.deliver_as (integer_of of) (way_of self.frame e.now)
            (destination to) free.temps free.labels) }
    {
        let alloc = self.frame.alloc;
        match integer_of(of) {
            Integer::Int => self.deliver(to, e, free),
            Integer::Char => delivered(alloc, to, fitted_low(alloc, of, self.value(e, free)?)?),
            Integer::UnsignedChar => delivered(
                alloc,
                to,
                fitted_low(alloc, of, self.value(e, free)?)?,
            ),
            Integer::Short => delivered(alloc, to, fitted_low(alloc, of, self.value(e, free)?)?),
            Integer::UnsignedShort => delivered(
                alloc,
                to,
                fitted_low(alloc, of, self.value(e, free)?)?,
            ),
        }
    }

    // An operator on one operand at its destination.
    #[cycle(expression)]
    fn unary_deliver(
        self,
        to: Destination,
        op: UnaryOperator,
        e: &Expression,
        free: Free,
    ) -> Result<Emitted, NoMemory>
        ensures { IfOk result (λ r. done r ≡ (expressions.unary self.frame.locals self.frame.functions op
            (way_of self.frame e.now)).deliver (destination to) free.temps free.labels) }
    {
        let alloc = self.frame.alloc;
        match op {
            UnaryOperator::Plus => delivered(alloc, to, self.unary(UnaryOperator::Plus, e, free)?),
            UnaryOperator::Minus => delivered(
                alloc,
                to,
                self.unary(UnaryOperator::Minus, e, free)?,
            ),
            UnaryOperator::Complement => delivered(
                alloc,
                to,
                self.unary(UnaryOperator::Complement, e, free)?,
            ),
            UnaryOperator::Not => delivered(alloc, to, self.unary(UnaryOperator::Not, e, free)?),
        }
    }

    // A choice at its destination.
    #[cycle(expression)]
    fn deliver_chosen(
        self,
        to: Destination,
        c: &Expression,
        a: &Expression,
        b: &Expression,
        free: Free,
    ) -> Result<Emitted, NoMemory>
        ensures { IfOk result (λ r. done r ≡ (conditions.choose (way_of self.frame c.now) (way_of self.frame a.now)
            (way_of self.frame b.now)).deliver (destination to) free.temps free.labels) }
    {
        let when = When {
            sense: false,
            to: free.labels,
        };
        let p = self.branch(c, when, free.past_two_labels()?)?;
        let q = self.deliver(to, a, p.free)?;
        let r = self.deliver(to, b, q.free)?;
        choose_deliver(to, free.labels, p, q, r)
    }

    // The effect of one expression, and then another at its destination.
    #[cycle(expression)]
    fn deliver_comma(
        self,
        to: Destination,
        a: &Expression,
        b: &Expression,
        free: Free,
    ) -> Result<Emitted, NoMemory>
        ensures { IfOk result (λ r. done r ≡ (conditions.comma (way_of self.frame a.now) (way_of self.frame b.now)).deliver
            (destination to) free.temps free.labels) }
    {
        let p = self.discard(a, free)?;
        let q = self.deliver(to, b, p.free)?;
        then_done(p, q)
    }

    /// An expression for its value at a destination.
    #[cycle(expression)]
    pub(crate) fn deliver(
        self,
        to: Destination,
        e: &Expression,
        free: Free,
    ) -> Result<Emitted, NoMemory>
        ensures { IfOk result (λ r. done r ≡ (way_of self.frame e.now).deliver (destination to) free.temps free.labels) }
    {
        match e {
            Expression::Call(_, f, types, es) => {
                called_deliver(
                    self.frame.alloc,
                    to,
                    callee_number(self.frame.functions, *f)?,
                    self.pass(es, types.as_slice(), free)?,
                )
            }
            Expression::Unary(op, a) => self.unary_deliver(to, *op, a, free),
            Expression::Cast(of, a) => self.deliver_as(to, *of, a, free),
            Expression::Convert(of, a) => self.deliver_as(to, *of, a, free),
            Expression::Choice(_, c, a, b) => self.deliver_chosen(to, c, a, b, free),
            Expression::Comma(_, a, b) => self.deliver_comma(to, a, b, free),
            Expression::Number(_) => self.kept(to, e, free),
            Expression::Literal(_, _) => self.kept(to, e, free),
            Expression::Array(_, _, _) => self.kept(to, e, free),
            Expression::Read(_) => self.kept(to, e, free),
            Expression::SizeofExpression(_, _) => self.kept(to, e, free),
            Expression::SizeofType(_) => self.kept(to, e, free),
            Expression::Address(_, _) => self.kept(to, e, free),
            Expression::Step(_, _, _) => self.kept(to, e, free),
            Expression::Compare(_, _, _) => self.kept(to, e, free),
            Expression::AndAnd(_, _) => self.kept(to, e, free),
            Expression::OrOr(_, _) => self.kept(to, e, free),
            Expression::Arithmetic(_, _, _) => self.kept(to, e, free),
            Expression::Advance(_, _, _) => self.kept(to, e, free),
            Expression::AdvanceBy(_, _, _) => self.kept(to, e, free),
            Expression::Retreat(_, _, _) => self.kept(to, e, free),
            Expression::Distance(_, _, _) => self.kept(to, e, free),
            Expression::Assign(_, _) => self.kept(to, e, free),
            Expression::ArithmeticAssign(_, _, _) => self.kept(to, e, free),
            Expression::AdvanceAssign(_, _) => self.kept(to, e, free),
            Expression::RetreatAssign(_, _) => self.kept(to, e, free),
        }
    }

    // A step for its effect.
    fn step_drop(self, by: Direction, p: Located) -> Result<Emitted, NoMemory>
        ensures { IfOk result (λ r. done r ≡ assignments.store_drop
            (assignments.step_ready self.frame.locals self.frame.functions by (found p))) }
    {
        store_drop(self.frame.alloc, step_ready(self.frame, by, p)?)
    }

    // A value that is not wanted.
    #[cycle(expression)]
    fn unwanted(self, e: &Expression, free: Free) -> Result<Emitted, NoMemory>
        ensures { IfOk result (λ r. done r ≡ conditions.dropped ((way_of self.frame e.now).low free.temps free.labels)) }
    {
        dropped(self.frame.alloc, self.value(e, free)?)
    }

    /// An expression for its effect alone.
    #[cycle(expression)]
    pub(crate) fn discard(self, e: &Expression, free: Free) -> Result<Emitted, NoMemory>
        ensures { IfOk result (λ r. done r ≡ (way_of self.frame e.now).drop free.temps free.labels) }
    {
        match e {
            Expression::Call(_, f, to, es) => {
                called_drop(
                    callee_number(self.frame.functions, *f)?,
                    self.pass(es, to.as_slice(), free)?,
                )
            }
            Expression::Step(_, by, p) => self.step_drop(*by, self.seek(p, free)?),
            Expression::Unary(op, e) => self.unary_drop(*op, e, free),
            Expression::Cast(_, e) => self.discard(e, free),
            Expression::Convert(_, e) => self.discard(e, free),
            Expression::Compare(_, a, b) => self.drop_two(a, b, free),
            Expression::AndAnd(a, b) => self.drop_chain(a, false, b, free),
            Expression::OrOr(a, b) => self.drop_chain(a, true, b, free),
            Expression::Choice(_, c, a, b) => self.drop_chosen(c, a, b, free),
            Expression::Assign(p, e) => self.assign_effect(p, e, free),
            Expression::ArithmeticAssign(op, p, e) => {
                self.drop_changed(Change::Arithmetic(*op), p, e, free)
            }
            Expression::AdvanceAssign(p, e) => self.drop_changed(Change::Advance, p, e, free),
            Expression::RetreatAssign(p, e) => self.drop_changed(Change::Retreat, p, e, free),
            Expression::Comma(_, a, b) => self.drop_two(a, b, free),
            Expression::Number(_) => self.unwanted(e, free),
            Expression::Literal(_, _) => self.unwanted(e, free),
            Expression::Array(_, _, _) => self.unwanted(e, free),
            Expression::Read(_) => self.unwanted(e, free),
            Expression::SizeofExpression(_, _) => self.unwanted(e, free),
            Expression::SizeofType(_) => self.unwanted(e, free),
            Expression::Address(_, _) => self.unwanted(e, free),
            Expression::Arithmetic(_, _, _) => self.unwanted(e, free),
            Expression::Advance(_, _, _) => self.unwanted(e, free),
            Expression::AdvanceBy(_, _, _) => self.unwanted(e, free),
            Expression::Retreat(_, _, _) => self.unwanted(e, free),
            Expression::Distance(_, _, _) => self.unwanted(e, free),
        }
    }

    // An operator on one operand for its effect: that of the operand.
    #[cycle(expression)]
    fn unary_drop(self, op: UnaryOperator, e: &Expression, free: Free) -> Result<Emitted, NoMemory>
        ensures { IfOk result (λ r. done r ≡ (expressions.unary self.frame.locals self.frame.functions op
            (way_of self.frame e.now)).drop free.temps free.labels) }
    {
        match op {
            UnaryOperator::Plus => self.discard(e, free),
            UnaryOperator::Minus => self.discard(e, free),
            UnaryOperator::Complement => self.discard(e, free),
            UnaryOperator::Not => self.discard(e, free),
        }
    }
}
