// Questions that have one answer.
ghost use Rattle.std.specs.Prelude.{◌≡◌, OnOk};
ghost use Rattle.vax_pairs.specs.SameTrees.{SameAnswer};
ghost use Rattle.vax_pairs_walk.specs.Views.{signs_of, carry_of, state_of};
ghost use Rattle.vax_pairs_same.specs.Parts.{SameSigns, SameCarry, reads_carry, CarryFor};

use crate::doubt::Doubt;
use crate::terms::{agree, same_size};
use std::alloc::Global;
use vax_machine::function::{Function, Test};
use vax_pairs_walk::state::{Carry, Signs, State};

// N and Z are the same.
fn same_signs(alloc: Global, a: &Signs, b: &Signs) -> Result<(), Doubt>
    ensures { OnOk result (SameSigns (signs_of a.now) (signs_of b.now)) }
{
    match (a, b) {
        (Signs::Tests(size, s), Signs::Tests(other, t)) => {
            same_size(*size, *other)?;
            agree(alloc, s, t)?;
            Ok(())
        }
        (Signs::Compares(size, s, v), Signs::Compares(other, t, w)) => {
            same_size(*size, *other)?;
            agree(alloc, s, t)?;
            agree(alloc, v, w)?;
            Ok(())
        }
        _ => Err(Doubt::NotShown),
    }
}

// The two functions are one: a comparison, or a test.
fn same_function(f: Function, g: Function) -> Result<(), Doubt>
    ensures { OnOk result (f ≡ g) }
{
    match (f, g) {
        (Function::Compare(size), Function::Compare(other)) => {
            same_size(size, other)?;
            Ok(())
        }
        (Function::CompareWithZero(size), Function::CompareWithZero(other)) => {
            same_size(size, other)?;
            Ok(())
        }
        _ => Err(Doubt::NotShown),
    }
}

// C is the same: that of a comparison, or of a test.
fn same_carry(alloc: Global, a: &Carry, b: &Carry) -> Result<(), Doubt>
    ensures { OnOk result (SameCarry (carry_of a.now) (carry_of b.now)) }
{
    match (a, b) {
        (Carry::Made(f, s, v), Carry::Made(g, t, w)) => {
            same_function(*f, *g)?;
            agree(alloc, s, t)?;
            agree(alloc, v, w)?;
            Ok(())
        }
        _ => Err(Doubt::NotShown),
    }
}

// The two tests are one.
fn same_test(a: Test, b: Test) -> Result<(), Doubt>
    ensures { OnOk result (a ≡ b) }
{
    match (a, b) {
        (Test::Always, Test::Always)
        | (Test::Equal, Test::Equal)
        | (Test::NotEqual, Test::NotEqual)
        | (Test::Less, Test::Less)
        | (Test::LessOrEqual, Test::LessOrEqual)
        | (Test::Greater, Test::Greater)
        | (Test::GreaterOrEqual, Test::GreaterOrEqual)
        | (Test::LessUnsigned, Test::LessUnsigned)
        | (Test::LessOrEqualUnsigned, Test::LessOrEqualUnsigned)
        | (Test::GreaterUnsigned, Test::GreaterUnsigned)
        | (Test::GreaterOrEqualUnsigned, Test::GreaterOrEqualUnsigned) => Ok(()),
        _ => Err(Doubt::NotShown),
    }
}

// Whether a test reads C.
fn reads_carry(test: Test) -> bool
    ensures { result ≡ reads_carry test }
{
    match test {
        Test::LessUnsigned
        | Test::LessOrEqualUnsigned
        | Test::GreaterUnsigned
        | Test::GreaterOrEqualUnsigned => true,
        _ => false,
    }
}

// C is the same, where the test reads it.
fn same_carry_for(alloc: Global, test: Test, s: &State, t: &State) -> Result<(), Doubt>
    ensures { OnOk result (CarryFor test (carry_of s.now.carry) (carry_of t.now.carry)) }
{
    if reads_carry(test) {
        return same_carry(alloc, &s.carry, &t.carry);
    }
    Ok(())
}

/// The two questions have one answer.
pub fn same_answer(
    alloc: Global,
    test: Test,
    s: &State,
    other: Test,
    t: &State,
) -> Result<(), Doubt>
    ensures { OnOk result (SameAnswer test (state_of s.now) other (state_of t.now)) }
{
    same_test(test, other)?;
    same_signs(alloc, &s.signs, &t.signs)?;
    same_carry_for(alloc, test, s, t)?;
    Ok(())
}
