// What the holes of a template stand for, and what its lines may do.
ghost use Rattle.std.specs.Prelude.{◌≡◌, IfOk};
ghost use Rattle.vax_templates.specs.Settings.{hole_of_token, hole_of_kind, hole_of, holes_of, saved_hole, hole_at, own_of, is_reuse};
ghost use Rattle.vax_templates.specs.Settings.{opening_of, opening_by};
ghost use Rattle.vax_templates.specs.Settings.{is_signed, setting_of, saved_own, is_reload, saved_setting};

use gg_base::{NoMemory, Size};
use md_reader::{Class, Give, Kind, Restriction, Rule, Sym, is_nothing, kind_at};
use std::alloc::Global;
use tree_core::Tok;
use vax_templates::{Hole, Opening, Own, Setting};

fn hole_of_token(token: Tok) -> Hole
    ensures { result ≡ hole_of_token token }
{
    match token {
        Tok::Zero => Hole::Literal(0),
        Tok::One => Hole::Literal(1),
        Tok::Two => Hole::Literal(2),
        Tok::Four => Hole::Literal(4),
        Tok::Eight => Hole::Literal(8),
        Tok::Const => Hole::Constant,
        Tok::Gaddr => Hole::Object,
        Tok::Loc | Tok::Arg => Hole::Local,
        Tok::Save => Hole::Saved,
        Tok::Cbr => Hole::Relation,
        _ => Hole::Other,
    }
}

fn hole_of_kind(kind: Option<Kind>) -> Hole
    ensures { result ≡ hole_of_kind kind }
{
    match kind {
        Some(Kind::Reg) => Hole::Register,
        Some(Kind::Value(size)) => Hole::Value(size),
        Some(Kind::Place(size)) => Hole::Place(size),
        Some(Kind::Con) => Hole::Constant,
        Some(Kind::Ea) => Hole::Address,
        Some(Kind::Nothing) | None => Hole::Other,
    }
}

fn hole_of(classes: &[Class], symbol: Sym) -> Hole
    ensures { result ≡ hole_of classes.now symbol }
{
    match symbol {
        Sym::Tok(token) => hole_of_token(token),
        Sym::Class(class) => hole_of_kind(kind_at(classes, class)),
    }
}

/// What each symbol of a right side is to the template.
pub fn holes_of(alloc: Global, classes: &[Class], right: &[Sym]) -> Result<Vec<Hole>, NoMemory>
    ensures { IfOk result (λ v. v.items ≡ holes_of classes.now right.now) }
{
    let holes = right
        .iter()
        .map(|symbol| hole_of(classes, *symbol))
        .collect(alloc)?;
    Ok(holes)
}

/// What `%1` is in a line that saves what is of this kind, or, for a register, in a reload line.
pub fn saved_hole(kind: Kind) -> Hole
    ensures { result ≡ saved_hole kind }
{
    match kind {
        Kind::Reg => Hole::Value(Size::Long),
        Kind::Value(size) => Hole::Value(size),
        Kind::Place(size) => Hole::SavedPlace(size),
        Kind::Ea => Hole::Address,
        Kind::Con | Kind::Nothing => Hole::Other,
    }
}

/// What the symbol with this number is, counted from 1.
pub fn hole_at(holes: &[Hole], i: u8) -> Hole
    ensures { result ≡ hole_at holes.now i }
{
    if i == 0 {
        return Hole::Other;
    }
    holes.get(i as usize - 1).copied().unwrap_or(Hole::Other)
}

fn own_of(give: &Give) -> Own
    ensures { result ≡ own_of give.now }
{
    match give {
        Give::Fresh | Give::Reuse | Give::Scratch => Own::Register,
        Give::Nothing | Give::Shape(_) => Own::Nothing,
    }
}

fn is_reuse(give: &Give) -> bool
    ensures { result ≡ is_reuse give.now }
{
    match give {
        Give::Reuse => true,
        Give::Fresh | Give::Scratch | Give::Nothing | Give::Shape(_) => false,
    }
}

fn opening_of(right: &[Sym]) -> Opening
    ensures { result ≡ opening_of right.now }
{
    match right {
        [Sym::Tok(Tok::Ret), ..] => Opening::Return,
        [Sym::Tok(Tok::Save), ..] => Opening::Save,
        _ => Opening::Other,
    }
}

// A rule that gives an operand neither returns nor saves.
fn opening_by(give: &Give, right: &[Sym]) -> Opening
    ensures { result ≡ opening_by give.now right.now }
{
    match give {
        Give::Shape(_) => Opening::Other,
        Give::Fresh | Give::Reuse | Give::Scratch | Give::Nothing => opening_of(right),
    }
}

fn is_signed(restrictions: &[Restriction]) -> bool
    ensures { result ≡ is_signed restrictions.now }
{
    restrictions.iter().any(|restriction| matches!(restriction, Restriction::Signed(_)))
}

/// What the lines of a rule may do.
pub fn setting_of(classes: &[Class], rule: &Rule) -> Setting
    ensures { result ≡ setting_of classes.now rule.now }
{
    Setting {
        own: own_of(&rule.give),
        is_reused: is_reuse(&rule.give),
        is_signed: is_signed(rule.restrictions.as_slice()),
        opening: opening_by(&rule.give, rule.right.as_slice()),
        is_statement: is_nothing(kind_at(classes, rule.left)),
    }
}

fn saved_own(kind: Kind) -> Own
    ensures { result ≡ saved_own kind }
{
    match kind {
        Kind::Reg => Own::Register,
        Kind::Value(size) => Own::Slot(size),
        Kind::Place(_) | Kind::Con | Kind::Ea | Kind::Nothing => Own::Slot(Size::Long),
    }
}

/// Whether the line of this kind reloads a register.
pub fn is_reload(kind: Kind) -> bool
    ensures { result ≡ is_reload kind }
{
    match kind {
        Kind::Reg => true,
        Kind::Value(_) | Kind::Place(_) | Kind::Con | Kind::Ea | Kind::Nothing => false,
    }
}

/// What the line may do that saves what is of this kind, or, for a register, reloads one.
pub fn saved_setting(kind: Kind) -> Setting
    ensures { result ≡ saved_setting kind }
{
    Setting {
        own: saved_own(kind),
        is_reused: false,
        is_signed: false,
        opening: Opening::Other,
        is_statement: !is_reload(kind),
    }
}
