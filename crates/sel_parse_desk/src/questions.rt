// What the restrictions of a rule ask.
ghost use Rattle.std.specs.Prelude.{◌≡◌, ◌∷◌, [], ◌-◌, ◌<◌, Some, length, drop, IfOk, IfSome, slice_get};
ghost use Rattle.lr_check_parse.specs.Attributes.{signed, in_range, is_signed, attribute_at, constant_at, relation_at, same_spelling};
ghost use Rattle.lr_check_parse.specs.Attributes.{holds, answered};
ghost use Rattle.sel_target.specs.declared.attr.Attr.TheVariants as attr;
ghost use Rattle.sel_target.specs.Symbols.{token_number, constant_of, relation_of, size_of_entry};
ghost use Rattle.sel_parse_desk.specs.Entries.{alone, spelled_leaf, spelled};
ghost use Rattle.sel_parse_desk.specs.Entries.{same_operands};
ghost use Rattle.sel_parse_desk.specs.Joined.{entry_at};
ghost use Rattle.sel_parse_desk.specs.Mirror.{stack_of, selecting_in};

use crate::desk::{Desk, Setting};
use crate::entries::Entries;
use gg_base::{NoMemory, Rel, Size, w32};
use md_reader::{Kind, Line, Piece, Pieces, Restriction, Rule, same_size};
use sel_target::{Attr, Templates};
use std::alloc::Global;
use tree_core::{Att, Leaf, Tok, TreeProgram};

// The size of what stands for a value or a place; a token's is a longword.
fn size_of_entry(kind: Option<Kind>) -> Option<Size>
    ensures { result ≡ size_of_entry kind }
{
    match kind {
        None => Some(Size::Long),
        Some(Kind::Value(size)) => Some(size),
        Some(Kind::Place(size)) => Some(size),
        _ => None,
    }
}

// A shape of one hole, for the first symbol.
fn alone(alloc: Global) -> Result<Line, NoMemory>
    ensures { IfOk result (λ l. l ≡ alone) }
{
    let pieces = alone_in(alloc, Piece::Hole(1))?;
    Ok(Line {
        line: 0,
        pieces: Pieces::from_vec(pieces),
    })
}

/// An item alone, as the only piece or the only hole of a line.
pub fn alone_in<X: Drop>(alloc: Global, item: X) -> Result<Vec<X>, NoMemory>
    ensures { IfOk result (λ v. v.items ≡ item ∷ []) }
{
    let mut items = Vec::new(alloc);
    items.push(item)?;
    Ok(items)
}

// The place of a local's or an argument's token.
fn leaf_place<T: Templates>(setting: &Setting<T>, leaf: Leaf) -> Result<T::Operand, NoMemory>
    ensures { IfOk result (λ o. o ≡ T.meaning.operand setting.now.program.now alone (attr.Token leaf ∷ [])) }
{
    let shape = alone(setting.alloc)?;
    let holes = alone_in(setting.alloc, Attr::Token(leaf))?;
    setting
        .target
        .operand(setting.alloc, setting.program, &shape, &holes)
}

// Whether an operand is spelled as a leaf is.
fn same_as_leaf<T: Templates>(
    setting: &Setting<T>,
    operand: &T::Operand,
    leaf: Leaf,
) -> Result<bool, NoMemory>
    ensures { IfOk result (λ b. b ≡ same_operands T.meaning (Some operand.now)
        (spelled_leaf T.meaning setting.now.program.now leaf leaf.tok)) }
{
    match leaf.tok {
        Tok::Loc | Tok::Arg => {
            let place = leaf_place(setting, leaf)?;
            Ok(setting.target.same(operand, &place))
        }
        _ => Ok(false),
    }
}

// Whether an operand is spelled as an attribute is.
fn same_as<T: Templates>(
    setting: &Setting<T>,
    operand: &T::Operand,
    attr: &Attr<T::Operand>,
) -> Result<bool, NoMemory>
    ensures { IfOk result (λ b. b ≡ same_operands T.meaning (Some operand.now) (spelled T.meaning setting.now.program.now attr.now)) }
{
    match attr {
        Attr::Value(other) => Ok(setting.target.same(operand, other)),
        Attr::Place(other) => Ok(setting.target.same(operand, other)),
        Attr::Token(leaf) => same_as_leaf(setting, operand, *leaf),
        Attr::Reg(_) | Attr::InSlot(_) | Attr::Con(_) | Attr::Ea(_) | Attr::Nothing => Ok(false),
    }
}

fn leaf_same_as<T: Templates>(
    setting: &Setting<T>,
    leaf: Leaf,
    attr: &Attr<T::Operand>,
) -> Result<bool, NoMemory>
    ensures { IfOk result (λ b. b ≡ same_operands T.meaning (spelled_leaf T.meaning setting.now.program.now leaf leaf.tok)
        (spelled T.meaning setting.now.program.now attr.now)) }
{
    match leaf.tok {
        Tok::Loc | Tok::Arg => {
            let place = leaf_place(setting, leaf)?;
            same_as(setting, &place, attr)
        }
        _ => Ok(false),
    }
}

// Whether two attributes are spelled alike.
fn spelled_alike<T: Templates>(
    setting: &Setting<T>,
    a: &Attr<T::Operand>,
    b: &Attr<T::Operand>,
) -> Result<bool, NoMemory>
    ensures { IfOk result (λ yes. yes ≡ same_operands T.meaning (spelled T.meaning setting.now.program.now a.now)
        (spelled T.meaning setting.now.program.now b.now)) }
{
    match a {
        Attr::Value(operand) => same_as(setting, operand, b),
        Attr::Place(operand) => same_as(setting, operand, b),
        Attr::Token(leaf) => leaf_same_as(setting, *leaf, b),
        Attr::Reg(_) | Attr::InSlot(_) | Attr::Con(_) | Attr::Ea(_) | Attr::Nothing => Ok(false),
    }
}

fn token_number(program: &TreeProgram, att: Att) -> Option<u32>
    ensures { result ≡ token_number program.now att }
{
    match att {
        Att::Number(number) => Some(number),
        Att::Object { object, offset } => match program.objects.as_slice().get(object as usize) {
            Some(object) => Some(w32::add(object.address, offset)),
            None => None,
        },
        _ => None,
    }
}

/// The number of a constant: a token's, or that of a class.
pub fn constant_of<O>(program: &TreeProgram, attr: &Attr<O>) -> Option<u32>
    ensures { result ≡ constant_of program.now attr.now }
{
    match attr {
        Attr::Con(number) => Some(*number),
        Attr::Token(leaf) => token_number(program, leaf.att),
        Attr::Reg(_)
        | Attr::InSlot(_)
        | Attr::Value(_)
        | Attr::Place(_)
        | Attr::Ea(_)
        | Attr::Nothing => None,
    }
}

fn relation_of<O>(attr: &Attr<O>) -> Option<Rel>
    ensures { result ≡ relation_of attr.now }
{
    let Attr::Token(leaf) = attr else {
        return None;
    };
    match leaf.att {
        Att::Branch { rel, .. } => Some(rel),
        _ => None,
    }
}

// Whether the relation compares with signs, or for equality.
fn is_signed(relation: Option<Rel>) -> bool
    ensures { result ≡ is_signed relation }
{
    match relation {
        None | Some(Rel::Ltu | Rel::Leu | Rel::Gtu | Rel::Geu) => false,
        _ => true,
    }
}

// A longword, read with its sign.
fn signed(number: u32) -> i32
    ensures { result ≡ signed number }
{
    if number < 0x8000_0000 {
        number as i32
    } else {
        -1 - (w32::com(number) as i32)
    }
}

fn in_range(low: i32, high: i32, constant: Option<u32>) -> bool
    ensures { result ≡ in_range low high constant }
{
    match constant {
        None => false,
        Some(number) => {
            let value = signed(number);
            low <= value && value <= high
        }
    }
}

// The place of a rule's symbol with this number, from 1, on a stack whose top the rule covers.
fn place_of<O: Drop>(entries: &Entries<O>, size: usize, number: u8) -> Option<usize>
    ensures place { attribute_at (drop (length entries.now - size) entries.now) number ≡ entry_at entries.now result }
    ensures within { IfSome result (λ i. i < length entries.now) }
{
    let long = entries.len();
    let base = long.saturating_sub(size);
    if number == 0 {
        return None;
    }
    let at = number as usize - 1;
    if at < long - base {
        Some(base + at)
    } else {
        None
    }
}

// Whether the symbols at two places are of one size, and spelled alike.
#[tactic(auto, using(crate::proofs::Asking::alike_in))]
fn alike_at<T: Templates>(
    setting: &Setting<T>,
    entries: &Entries<T::Operand>,
    a: usize,
    b: usize,
) -> Result<bool, NoMemory>
    requires a { a < length entries.now }
    requires b { b < length entries.now }
    ensures { IfOk result (λ yes. yes ≡ same_spelling (selecting_in T.meaning setting.now)
        (slice_get entries.now a) (slice_get entries.now b)) }
{
    if same_size(
        size_of_entry(entries.kind(a)),
        size_of_entry(entries.kind(b)),
    ) {
        spelled_alike(setting, entries.attr(a), entries.attr(b))
    } else {
        Ok(false)
    }
}

// Whether two symbols, which may be missing, are of one size, and spelled alike.
fn alike<T: Templates>(
    setting: &Setting<T>,
    entries: &Entries<T::Operand>,
    a: Option<usize>,
    b: Option<usize>,
) -> Result<bool, NoMemory>
    requires a { IfSome a (λ i. i < length entries.now) }
    requires b { IfSome b (λ i. i < length entries.now) }
    ensures { IfOk result (λ yes. yes ≡ same_spelling (selecting_in T.meaning setting.now)
        (entry_at entries.now a) (entry_at entries.now b)) }
{
    match (a, b) {
        (Some(a), Some(b)) => alike_at(setting, entries, a, b),
        _ => Ok(false),
    }
}

fn constant_at<T: Templates>(
    setting: &Setting<T>,
    entries: &Entries<T::Operand>,
    at: Option<usize>,
) -> Option<u32>
    requires { IfSome at (λ i. i < length entries.now) }
    ensures { result ≡ constant_at (selecting_in T.meaning setting.now) (entry_at entries.now at) }
{
    match at {
        Some(at) => constant_of(setting.program, entries.attr(at)),
        None => None,
    }
}

fn relation_at<T: Templates>(
    _setting: &Setting<T>,
    entries: &Entries<T::Operand>,
    at: Option<usize>,
) -> Option<Rel>
    requires { IfSome at (λ i. i < length entries.now) }
    ensures { result ≡ relation_at (selecting_in T.meaning _setting.now) (entry_at entries.now at) }
{
    match at {
        Some(at) => relation_of(entries.attr(at)),
        None => None,
    }
}

// Whether a restriction holds of the symbols that a rule covers.
fn holds<T: Templates>(
    setting: &Setting<T>,
    entries: &Entries<T::Operand>,
    size: usize,
    restriction: Restriction,
) -> Result<bool, NoMemory>
    ensures { IfOk result (λ yes. yes ≡ holds (selecting_in T.meaning setting.now)
        (drop (length entries.now - size) entries.now) restriction) }
{
    match restriction {
        Restriction::Same(i, j) => {
            let a = place_of(entries, size, i);
            let b = place_of(entries, size, j);
            alike(setting, entries, a, b)
        }
        Restriction::Range(i, low, high) => {
            let at = place_of(entries, size, i);
            Ok(in_range(low, high, constant_at(setting, entries, at)))
        }
        Restriction::Signed(i) => {
            let at = place_of(entries, size, i);
            Ok(is_signed(relation_at(setting, entries, at)))
        }
    }
}

/// Whether the restrictions of a rule hold of the symbols that it covers on top of the stack.
pub fn answered<T: Templates>(
    setting: &Setting<T>,
    desk: &Desk<T::Operand, T::Instr>,
    rule: &Rule,
) -> Result<bool, NoMemory>
    ensures { IfOk result (λ yes. yes ≡ answered (selecting_in T.meaning setting.now) rule.now (Some (stack_of desk.now))) }
{
    let size = rule.right.as_slice().len();
    for restriction in rule.restrictions.as_slice() {
        if !holds(setting, &desk.stack.entries, size, *restriction)? {
            return Ok(false);
        }
    }
    Ok(true)
}
