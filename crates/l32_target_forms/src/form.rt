// Operands at the front of some marks.
ghost use Rattle.std.specs.Prelude.{◌≡◌};
ghost use Rattle.std.specs.Option.{option_map};
ghost use Rattle.vax_templates.specs.Forms.{number_spelled, negative_hole};
ghost use Rattle.l32_templates.specs.Forms.{near, far, deferred_front, immediate_front, named_front, form_front};

use l32_templates::Form;
use vax_target_forms::form::{negative, number};
use vax_target_forms::marks::{at, strip};
use vax_templates::{Mark, Number};

fn near(number: Number, marks: &[Mark]) -> Option<(Form, &[Mark])>
    ensures { near (number, marks.now) ≡ option_map (λ x. (x.0, x.1.now)) result }
{
    if let Some((i, rest)) = at(marks) {
        return Some((Form::Displacement(number, i), rest));
    }
    match number {
        Number::Symbol(i) => Some((Form::Hole(i), marks)),
        Number::Itself(_) => None,
    }
}

fn far(number: Number, marks: &[Mark]) -> Option<(Form, &[Mark])>
    ensures { far (number, marks.now) ≡ option_map (λ x. (x.0, x.1.now)) result }
{
    if let Some((i, rest)) = at(marks) {
        return Some((Form::DisplacementDeferred(number, i), rest));
    }
    match number {
        Number::Symbol(i) => Some((Form::Deferred(i), marks)),
        Number::Itself(_) => None,
    }
}

// What stands behind `@`.
fn deferred(marks: &[Mark]) -> Option<(Form, &[Mark])>
    ensures { deferred_front marks.now ≡ option_map (λ x. (x.0, x.1.now)) result }
{
    let (n, rest) = number(marks)?;
    far(n, rest)
}

// What stands behind `$`.
#[tactic(auto, unfolding(l32_templates::specs::Forms::immediate_front))]
fn immediate(marks: &[Mark]) -> Option<(Form, &[Mark])>
    ensures { immediate_front marks.now ≡ option_map (λ x. (x.0, x.1.now)) result }
{
    if let Some((i, rest)) = negative(marks) {
        return Some((Form::Negative(i), rest));
    }
    let (n, rest) = number(marks)?;
    Some((Form::Immediate(n), rest))
}

// What stands behind `a`.
fn named(marks: &[Mark]) -> Option<(Form, &[Mark])>
    ensures { named_front marks.now ≡ option_map (λ x. (x.0, x.1.now)) result }
{
    let rest = strip(b'0', marks)?;
    Some((Form::RegisterZero, rest))
}

/// The operand at the front.
#[tactic(auto, unfolding(l32_templates::specs::Forms::form_front))]
pub fn form(marks: &[Mark]) -> Option<(Form, &[Mark])>
    ensures { form_front marks.now ≡ option_map (λ x. (x.0, x.1.now)) result }
{
    if let Some(rest) = strip(b'@', marks) {
        return deferred(rest);
    }
    if let Some(rest) = strip(b'$', marks) {
        return immediate(rest);
    }
    if let Some(rest) = strip(b'a', marks) {
        return named(rest);
    }
    let (n, rest) = number(marks)?;
    near(n, rest)
}
