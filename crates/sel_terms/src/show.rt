// The text of effects.

ghost use Rattle.std.specs.Prelude.{◌≡◌, ◌++◌, map, IfOk, OnOk};
ghost use Rattle.std.specs.List.{flat_map};
ghost use Rattle.std.specs.Fmt.{decimal};
ghost use Rattle.term_core.specs.Shape.{shape_of};
ghost use Rattle.term_core.specs.Text.{term_text};
ghost use Rattle.sel_terms.specs.Effects.{act_of, effect_of};
ghost use Rattle.sel_terms.specs.Text.{home_text, act_text, divisor_text, effect_text};

use crate::effect::{Act, Effect};
use gg_base::{NoMemory, Text, put_decimal};
use std::alloc::{AllocError, Global};
use term_core::{Term, put_term, put_text, size_name};

fn put_home(into: &mut Vec<u8>, i: u8) -> Result<(), AllocError>
    ensures { OnOk result (into.new.items ≡ into.old.items ++ home_text i) }
{
    put_text(into, " home ")?;
    put_decimal(into, u64::from(i))
}

// A word and a term.
fn put_word(into: &mut Vec<u8>, word: &str, t: &Term) -> Result<(), AllocError>
    ensures { OnOk result (into.new.items ≡ into.old.items ++ (word.now ++ term_text (shape_of t.now))) }
{
    put_text(into, word)?;
    put_term(into, t)
}

fn put_act(into: &mut Vec<u8>, act: &Act) -> Result<(), AllocError>
    ensures { OnOk result (into.new.items ≡ into.old.items ++ act_text (act_of act.now)) }
{
    match act {
        Act::Value(t) => put_word(into, "value ", t),
        Act::Number(t) => put_word(into, "number ", t),
        Act::Address(t) => put_word(into, "address ", t),
        Act::PlaceHome(size, i) => {
            put_text(into, "place ")?;
            put_text(into, size_name(*size))?;
            put_home(into, *i)
        }
        Act::PlaceAt(size, a) => {
            put_text(into, "place ")?;
            put_text(into, size_name(*size))?;
            put_word(into, " at ", a)
        }
        Act::StoreHome(size, i, t) => {
            put_text(into, "store ")?;
            put_text(into, size_name(*size))?;
            put_home(into, *i)?;
            put_word(into, " ", t)
        }
        Act::StoreAt(size, a, t) => {
            put_text(into, "store ")?;
            put_text(into, size_name(*size))?;
            put_word(into, " at ", a)?;
            put_word(into, " ", t)
        }
        Act::Branch(i, a, b) => {
            put_text(into, "branch ")?;
            put_decimal(into, *i as u64)?;
            put_word(into, " ", a)?;
            put_word(into, " ", b)
        }
        Act::Push(t) => put_word(into, "push ", t),
        Act::Call => put_text(into, "call"),
        Act::Save(i) => {
            put_text(into, "save ")?;
            put_decimal(into, *i as u64)
        }
        Act::Return(t) => put_word(into, "return ", t),
        Act::Jump => put_text(into, "jump"),
    }
}

fn put_divisors(into: &mut Vec<u8>, divisors: &[Term]) -> Result<(), AllocError>
    ensures { OnOk result (into.new.items ≡ into.old.items ++ flat_map divisor_text (map shape_of divisors.now)) }
{
    for t in divisors {
        put_word(into, " div ", t)?;
    }
    Ok(())
}

/// The text of an effect: its act, and behind it each divisor.
pub fn show_effect(alloc: Global, effect: &Effect) -> Result<Text, NoMemory>
    ensures { IfOk result (λ text. text ≡ effect_text (effect_of effect.now)) }
{
    let mut text = Vec::new(alloc);
    put_act(&mut text, &effect.act)?;
    put_divisors(&mut text, &effect.divisors)?;
    Ok(Text::from_vec(text))
}
