// What an operand is that a rule gives, by where it stands.
ghost use Rattle.std.specs.Prelude.{◌≡◌};
ghost use Rattle.sel_terms.specs.Effects.{act_of};
ghost use Rattle.vax_templates.specs.GiveLines.{register_given, address_given, value_given, home_given, place_given};
ghost use Rattle.template_judging.specs.Stages.{constant_given};
ghost use Rattle.vax_target_taking.specs.Answers.{Judges};
ghost use Rattle.vax_target_taking.specs.Views.{where_of, taken_of};

use gg_base::Size;
use sel_target::TemplateKind;
use sel_terms::Act;
use term_core::Term;
use vax_target_forms::refusal::{NOT_INSTR, Refusal};
use vax_target_taking::standing::{Location, Template};
use vax_target_taking::taking::Operand;

/// A register's value is given.
pub fn register_given(location: Location) -> Result<Act, Refusal>
    ensures { Judges act_of result (register_given (where_of location)) }
{
    match location {
        Location::Register(i) => Ok(Act::Value(Term::V(i))),
        _ => Err(NOT_INSTR),
    }
}

/// The address of memory is given.
pub fn address_given(location: Location) -> Result<Act, Refusal>
    ensures { Judges act_of result (address_given (where_of location)) }
{
    match location {
        Location::At(a, _) => Ok(Act::Address(Box::into_inner(a))),
        _ => Err(NOT_INSTR),
    }
}

/// What is read is given, if it has the size.
pub fn value_given(taken: Operand) -> Result<Act, Refusal>
    ensures { Judges act_of result (value_given (taken_of taken)) }
{
    if taken.is_missized {
        return Err(Refusal::Wrong(TemplateKind::WrongSize));
    }
    Ok(Act::Value(Box::into_inner(taken.term)))
}

fn home_given(size: Size, has: Size, i: u8) -> Result<Act, Refusal>
    ensures { Judges act_of result (home_given size has i) }
{
    if has.bytes() == size.bytes() {
        Ok(Act::PlaceHome(size, i))
    } else {
        Err(Refusal::Wrong(TemplateKind::WrongSize))
    }
}

/// A place of this size is given.
pub fn place_given(size: Size, location: Location) -> Result<Act, Refusal>
    ensures { Judges act_of result (place_given size (where_of location)) }
{
    match location {
        Location::Place(has, i) => home_given(size, has, i),
        Location::Local(i) => home_given(size, Size::Long, i),
        Location::At(a, _) => Ok(Act::PlaceAt(size, Box::into_inner(a))),
        _ => Err(NOT_INSTR),
    }
}

/// A constant is given.
pub fn constant_given(template: Template<'_>, i: u8) -> Result<Act, Refusal>
    ensures { Judges act_of result (constant_given template.entry.holes.now i) }
{
    Ok(Act::Number(template.constant(i)?))
}
