// What a rule says of its symbols.

ghost use Rattle.std.specs.Prelude.{◌≡◌, ◌≤◌, ◌+◌, ◌∷◌, [], length, IfOk};
ghost use Rattle.term_core.specs.Normal.{AreSettled};
ghost use Rattle.sel_terms.specs.RuleFacts.{size_of_kind, size_of_symbol, size_at, is_small_range, is_ranged, alike_once};
ghost use Rattle.sel_terms.specs.RuleFacts.{least_alike, fact_of, facts_of, size_of_saved, saved_facts};

use gg_base::{NoMemory, Size};
use md_reader::{Class, Kind, Restriction, Rule, Sym, kind_at};
use std::alloc::Global;
use term_core::Fact;

fn size_of_kind(kind: Option<Kind>) -> Size
    ensures { result ≡ size_of_kind kind }
{
    match kind {
        Some(Kind::Value(size)) => size,
        Some(Kind::Place(size)) => size,
        _ => Size::Long,
    }
}

/// The size of what stands for a symbol of a pattern; it is a longword where the symbol names none.
pub fn size_of_symbol(classes: &[Class], symbol: Sym) -> Size
    ensures { result ≡ size_of_symbol classes.now symbol }
{
    match symbol {
        Sym::Tok(_) => Size::Long,
        Sym::Class(class) => size_of_kind(kind_at(classes, class)),
    }
}

fn size_at(classes: &[Class], right: &[Sym], i: usize) -> Size
    ensures { result ≡ size_at classes.now right.now i }
{
    if i == 0 || right.len() < i {
        return Size::Long;
    }
    size_of_symbol(classes, right[i - 1])
}

fn is_small_range(low: i32, high: i32) -> bool
    ensures { result ≡ is_small_range low high }
{
    0 <= low && high <= 31
}

// Whether the restriction is a small range of the symbol's constant.
fn is_range_of(restriction: &Restriction, i: u8) -> bool
    ensures { result ≡ is_ranged (restriction.now ∷ []) i }
{
    match restriction {
        Restriction::Range(j, low, high) => *j == i && is_small_range(*low, *high),
        _ => false,
    }
}

fn is_ranged(restrictions: &[Restriction], i: u8) -> bool
    ensures { result ≡ is_ranged restrictions.now i }
{
    restrictions
        .iter()
        .any(|restriction| is_range_of(restriction, i))
}

// One reading of the restrictions, in which the greater symbol of each pair that is spelled alike gives way to the lesser.
fn alike_once(restrictions: &[Restriction], i: u8) -> u8
    ensures { result ≡ alike_once restrictions.now i }
{
    let mut least = i;
    for restriction in restrictions {
        if let Restriction::Same(a, b) = restriction {
            if least == *a.max(b) {
                least = *a.min(b);
            }
        }
    }
    least
}

fn least_alike(restrictions: &[Restriction], i: u8) -> u8
    ensures { result ≡ least_alike restrictions.now i }
{
    let mut least = i;
    for _turn in 0..i {
        least = alike_once(restrictions, least);
    }
    least
}

fn fact_of(rule: &Rule, classes: &[Class], i: u8) -> Fact
    ensures { result ≡ fact_of classes.now rule.now i }
{
    let restrictions = rule.restrictions.as_slice();
    Fact {
        size: size_at(classes, rule.right.as_slice(), i as usize),
        is_count: is_ranged(restrictions, i),
        same_as: least_alike(restrictions, i),
    }
}

/// What a rule with these classes says of its symbols: the sizes of classes, the ranges of constants, and which are spelled alike. No
/// symbol gives way to one that gives way itself.
pub fn rule_facts(alloc: Global, rule: &Rule, classes: &[Class]) -> Result<Vec<Fact>, NoMemory>
    requires { length rule.now.right ≤ 16 }
    ensures said { IfOk result (λ v. v.items ≡ facts_of classes.now rule.now) }
    ensures settled { IfOk result (λ v. AreSettled v.items) }
{
    let count = rule.right.as_slice().len() as u8 + 1;
    let facts = (0..count)
        .map(|i| fact_of(rule, classes, i))
        .collect(alloc)?;
    Ok(facts)
}

fn size_of_saved(kind: Kind) -> Size
    ensures { result ≡ size_of_saved kind }
{
    match kind {
        Kind::Value(size) => size,
        _ => Size::Long,
    }
}

/// What is known of the symbols of a line that saves what is of this kind, or that brings a register back: `%0`, and `%1`, the value that
/// is saved or the address of a place.
#[tactic(auto, using(crate::proofs::Settled::saved_settled))]
pub fn saved_facts(kind: Kind) -> [Fact; 2]
    ensures said { result ≡ saved_facts kind }
    ensures settled { AreSettled result }
{
    let slot = Fact {
        size: Size::Long,
        is_count: false,
        same_as: 0,
    };
    let saved = Fact {
        size: size_of_saved(kind),
        is_count: false,
        same_as: 1,
    };
    [slot, saved]
}
