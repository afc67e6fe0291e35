// Operands at the front of some marks.
ghost use Rattle.std.specs.Prelude.{◌≡◌};
ghost use Rattle.std.specs.Option.{option_map};
ghost use Rattle.vax_templates.specs.Forms.{number_spelled, near, far, deferred_front, negative_hole, immediate_front, named_front};
ghost use Rattle.vax_templates.specs.Forms.{base_front, index_front, form_front};

use crate::marks::{at, hole, signed, strip};
use vax_templates::{Base, Form, Mark, Number};

/// `n` or `%i`
#[tactic(auto, unfolding(vax_templates::specs::Forms::number_spelled))]
pub fn number(marks: &[Mark]) -> Option<(Number, &[Mark])>
    ensures { number_spelled marks.now ≡ option_map (λ x. (x.0, x.1.now)) result }
{
    if let Some((i, rest)) = hole(marks) {
        return Some((Number::Symbol(i), rest));
    }
    let (n, rest) = signed(marks)?;
    Some((Number::Itself(n), rest))
}

fn near(number: Number, marks: &[Mark]) -> Option<(Base, &[Mark])>
    ensures { near (number, marks.now) ≡ option_map (λ x. (x.0, x.1.now)) result }
{
    if let Some((i, rest)) = at(marks) {
        return Some((Base::Displacement(number, i), rest));
    }
    match number {
        Number::Symbol(i) => Some((Base::Hole(i), marks)),
        Number::Itself(_) => None,
    }
}

fn far(number: Number, marks: &[Mark]) -> Option<(Base, &[Mark])>
    ensures { far (number, marks.now) ≡ option_map (λ x. (x.0, x.1.now)) result }
{
    if let Some((i, rest)) = at(marks) {
        return Some((Base::DisplacementDeferred(number, i), rest));
    }
    match number {
        Number::Symbol(i) => Some((Base::Deferred(i), marks)),
        Number::Itself(_) => None,
    }
}

// What stands behind `*`.
#[tactic(auto, unfolding(vax_templates::specs::Forms::deferred_front))]
fn deferred(marks: &[Mark]) -> Option<(Base, &[Mark])>
    ensures { deferred_front marks.now ≡ option_map (λ x. (x.0, x.1.now)) result }
{
    if let Some(rest) = strip(b'$', marks) {
        let (n, rest) = number(rest)?;
        return Some((Base::Absolute(n), rest));
    }
    let (n, rest) = number(marks)?;
    far(n, rest)
}

/// `-%i`
pub fn negative(marks: &[Mark]) -> Option<(u8, &[Mark])>
    ensures { negative_hole marks.now ≡ option_map (λ x. (x.0, x.1.now)) result }
{
    hole(strip(b'-', marks)?)
}

// What stands behind `$`.
#[tactic(auto, unfolding(vax_templates::specs::Forms::immediate_front))]
fn immediate(marks: &[Mark]) -> Option<(Base, &[Mark])>
    ensures { immediate_front marks.now ≡ option_map (λ x. (x.0, x.1.now)) result }
{
    if let Some((i, rest)) = negative(marks) {
        return Some((Base::Negative(i), rest));
    }
    let (n, rest) = number(marks)?;
    Some((Base::Immediate(n), rest))
}

// What stands behind `r`.
fn named(marks: &[Mark]) -> Option<(Base, &[Mark])>
    ensures { named_front marks.now ≡ option_map (λ x. (x.0, x.1.now)) result }
{
    let rest = strip(b'0', marks)?;
    Some((Base::RegisterZero, rest))
}

#[tactic(auto, unfolding(vax_templates::specs::Forms::base_front))]
fn base(marks: &[Mark]) -> Option<(Base, &[Mark])>
    ensures { base_front marks.now ≡ option_map (λ x. (x.0, x.1.now)) result }
{
    if let Some(rest) = strip(b'*', marks) {
        return deferred(rest);
    }
    if let Some(rest) = strip(b'$', marks) {
        return immediate(rest);
    }
    if let Some(rest) = strip(b'r', marks) {
        return named(rest);
    }
    if let Some((i, rest)) = at(marks) {
        return Some((Base::RegisterDeferred(i), rest));
    }
    let (n, rest) = number(marks)?;
    near(n, rest)
}

#[tactic(auto, unfolding(vax_templates::specs::Forms::index_front))]
fn index(marks: &[Mark]) -> Option<(Option<u8>, &[Mark])>
    ensures { index_front marks.now ≡ option_map (λ x. (x.0, x.1.now)) result }
{
    let Some(rest) = strip(b'[', marks) else {
        return Some((None, marks));
    };
    let (i, rest) = hole(rest)?;
    let rest = strip(b']', rest)?;
    Some((Some(i), rest))
}

/// The operand at the front.
#[tactic(auto, unfolding(vax_templates::specs::Forms::form_front))]
pub fn form(marks: &[Mark]) -> Option<(Form, &[Mark])>
    ensures { form_front marks.now ≡ option_map (λ x. (x.0, x.1.now)) result }
{
    let (base, rest) = base(marks)?;
    let (index, rest) = index(rest)?;
    Some((Form { base, index }, rest))
}
