// What may stand in a rule: restrictions, holes, and what is given.
ghost use Rattle.std.specs.Prelude.{◌≡◌};
ghost use Rattle.std.specs.Option.{option_map};
ghost use Rattle.md_reader.specs.Restrictions.{symbol_at, kind_of_symbol, size_of_kind, is_local, size_of_symbol};
ghost use Rattle.md_reader.specs.Restrictions.{same_size, is_branch, is_jump, is_call, is_const, is_con, is_reg};
ghost use Rattle.md_reader.specs.Restrictions.{is_nothing, restriction_fits};
ghost use Rattle.md_reader.specs.Rows.{any_symbol, has_value, is_something, symbol_hole_fits, piece_fits, pieces_fit};
ghost use Rattle.md_reader.specs.Rows.{behind_j, first_hole, hole_behind, relation_fits, line_fits, only_symbol};
ghost use Rattle.md_reader.specs.Rows.{is_constant, shape_fits, plain_fits, is_bare};

use crate::patterns::kind_at;
use crate::types::{Class, Give, Kind, Restriction, Sym};
use gg_base::Size;
use md_reader_pieces::Piece;
use md_reader_text::is_word;
use tree_core::{AttKind, Tok};

fn symbol_at(right: &[Sym], number: u8) -> Option<Sym>
    ensures { result ≡ symbol_at right.now number }
{
    if number == 0 {
        return None;
    }
    right.get(number as usize - 1).copied()
}

fn kind_of_symbol(classes: &[Class], sym: Option<Sym>) -> Option<Kind>
    ensures { result ≡ kind_of_symbol classes.now sym }
{
    match sym {
        Some(Sym::Class(class)) => kind_at(classes, class),
        Some(Sym::Tok(_)) => None,
        None => None,
    }
}

fn size_of_kind(kind: Option<Kind>) -> Option<Size>
    ensures { result ≡ size_of_kind kind }
{
    match kind {
        Some(Kind::Value(size)) => Some(size),
        Some(Kind::Place(size)) => Some(size),
        _ => None,
    }
}

fn is_local(sym: Option<Sym>) -> bool
    ensures { result ≡ is_local sym }
{
    matches!(sym, Some(Sym::Tok(Tok::Loc)) | Some(Sym::Tok(Tok::Arg)))
}

fn size_of_symbol(classes: &[Class], sym: Option<Sym>) -> Option<Size>
    ensures { result ≡ size_of_symbol classes.now sym }
{
    if is_local(sym) {
        return Some(Size::Long);
    }
    size_of_kind(kind_of_symbol(classes, sym))
}

/// Whether both are the same size, and there is one.
pub fn same_size(first: Option<Size>, second: Option<Size>) -> bool
    ensures { result ≡ same_size first second }
{
    match (first, second) {
        (Some(Size::Byte), Some(Size::Byte)) => true,
        (Some(Size::Word), Some(Size::Word)) => true,
        (Some(Size::Long), Some(Size::Long)) => true,
        _ => false,
    }
}

fn is_branch(sym: Option<Sym>) -> bool
    ensures { result ≡ is_branch sym }
{
    matches!(sym, Some(Sym::Tok(Tok::Cbr)))
}

fn is_jump(sym: Option<Sym>) -> bool
    ensures { result ≡ is_jump sym }
{
    matches!(sym, Some(Sym::Tok(Tok::Jump)))
}

fn is_call(sym: Option<Sym>) -> bool
    ensures { result ≡ is_call sym }
{
    matches!(sym, Some(Sym::Tok(Tok::Call)))
}

fn is_const(sym: Option<Sym>) -> bool
    ensures { result ≡ is_const sym }
{
    matches!(sym, Some(Sym::Tok(Tok::Const)))
}

fn is_con(kind: Option<Kind>) -> bool
    ensures { result ≡ is_con kind }
{
    matches!(kind, Some(Kind::Con))
}

fn is_reg(kind: Option<Kind>) -> bool
    ensures { result ≡ is_reg kind }
{
    matches!(kind, Some(Kind::Reg))
}

/// Whether the kind is that of statements.
pub fn is_nothing(kind: Option<Kind>) -> bool
    ensures { result ≡ is_nothing kind }
{
    matches!(kind, Some(Kind::Nothing))
}

/// Whether the restriction may be put on a rule with this right side.
pub fn restriction_fits(classes: &[Class], right: &[Sym], restriction: Restriction) -> bool
    ensures { result ≡ restriction_fits classes.now right.now restriction }
{
    match restriction {
        Restriction::Same(i, j) => {
            let first = size_of_symbol(classes, symbol_at(right, i));
            let second = size_of_symbol(classes, symbol_at(right, j));
            i != j && same_size(first, second)
        }
        Restriction::Range(i, _, _) => {
            let sym = symbol_at(right, i);
            is_const(sym) || is_con(kind_of_symbol(classes, sym))
        }
        Restriction::Signed(i) => is_branch(symbol_at(right, i)),
    }
}

fn has_branch(right: &[Sym]) -> bool
    ensures { result ≡ any_symbol is_branch right.now }
{
    right.iter().any(|sym| is_branch(Some(*sym)))
}

fn has_jump(right: &[Sym]) -> bool
    ensures { result ≡ any_symbol is_jump right.now }
{
    right.iter().any(|sym| is_jump(Some(*sym)))
}

fn has_call(right: &[Sym]) -> bool
    ensures { result ≡ any_symbol is_call right.now }
{
    right.iter().any(|sym| is_call(Some(*sym)))
}

fn is_something(attribute: AttKind) -> bool
    ensures { result ≡ is_something attribute }
{
    !matches!(attribute, AttKind::Nothing)
}

fn has_value(sym: Option<Sym>) -> bool
    ensures { result ≡ has_value sym }
{
    match sym {
        None => false,
        Some(Sym::Tok(tok)) => is_something(tok.attribute()),
        Some(Sym::Class(_)) => true,
    }
}

fn piece_fits(register: bool, right: &[Sym], piece: &Piece) -> bool
    ensures { result ≡ piece_fits register right.now piece.now }
{
    match piece {
        Piece::Bytes(_) => true,
        Piece::Hole(0) => register,
        Piece::Hole(i) => has_value(symbol_at(right, *i)),
        Piece::Label => has_branch(right) || has_jump(right),
        Piece::Callee => has_call(right),
        Piece::Count => has_call(right),
    }
}

/// Whether each hole of an operand names something of the rule; `%0` if it has a register.
pub fn pieces_fit(register: bool, right: &[Sym], pieces: &[Piece]) -> bool
    ensures { result ≡ pieces_fit register right.now pieces.now }
{
    pieces
        .iter()
        .all(|piece| piece_fits(register, right, piece))
}

fn behind_j(pieces: &[Piece]) -> Option<&[Piece]>
    ensures { option_map (λ x. x.now) result ≡ behind_j pieces.now }
{
    match pieces {
        [Piece::Bytes(word), rest @ ..] => {
            if is_word(word.as_slice(), "j") {
                Some(rest)
            } else {
                None
            }
        }
        _ => None,
    }
}

fn first_hole(pieces: &[Piece]) -> Option<u8>
    ensures { result ≡ first_hole pieces.now }
{
    match pieces {
        [Piece::Hole(i), ..] => Some(*i),
        _ => None,
    }
}

fn relation_fits(register: bool, right: &[Sym], hole: Option<u8>) -> bool
    ensures { result ≡ relation_fits register right.now hole }
{
    match hole {
        None => true,
        Some(0) => register,
        Some(i) => is_branch(symbol_at(right, i)),
    }
}

fn relation_hole(pieces: &[Piece]) -> Option<u8>
    ensures { result ≡ hole_behind (behind_j pieces.now) }
{
    first_hole(behind_j(pieces)?)
}

/// Whether each hole of a template's line names something of the rule, and `j%i` a branch.
pub fn line_fits(register: bool, right: &[Sym], pieces: &[Piece]) -> bool
    ensures { result ≡ line_fits register right.now pieces.now }
{
    relation_fits(register, right, relation_hole(pieces)) && pieces_fit(register, right, pieces)
}

fn only_symbol(right: &[Sym], pieces: &[Piece]) -> Option<Sym>
    ensures { result ≡ only_symbol right.now pieces.now }
{
    match pieces {
        [Piece::Hole(i)] => symbol_at(right, *i),
        _ => None,
    }
}

fn is_constant(sym: Option<Sym>) -> bool
    ensures { result ≡ is_constant sym }
{
    match sym {
        Some(Sym::Tok(tok)) => matches!(
            tok,
            Tok::Zero | Tok::One | Tok::Two | Tok::Four | Tok::Eight | Tok::Const
        ),
        _ => false,
    }
}

/// Whether a rule of this kind may give the operand.
pub fn shape_fits(classes: &[Class], right: &[Sym], left: Option<Kind>, pieces: &[Piece]) -> bool
    ensures { result ≡ shape_fits classes.now right.now left pieces.now }
{
    let sym = only_symbol(right, pieces);
    match left {
        None => false,
        Some(Kind::Reg) => is_reg(kind_of_symbol(classes, sym)),
        Some(Kind::Con) => is_con(kind_of_symbol(classes, sym)) || is_constant(sym),
        Some(Kind::Nothing) => false,
        Some(Kind::Value(_)) => true,
        Some(Kind::Place(_)) => true,
        Some(Kind::Ea) => true,
    }
}

/// Whether a rule of this kind may give that.
pub fn plain_fits(left: Option<Kind>, give: &Give) -> bool
    ensures { result ≡ plain_fits left give.now }
{
    match give {
        Give::Fresh => is_reg(left),
        Give::Reuse => is_reg(left),
        Give::Scratch => is_nothing(left),
        Give::Nothing => is_nothing(left),
        Give::Shape(_) => false,
    }
}

/// Whether the right side is a class of statements alone.
pub fn is_bare(classes: &[Class], right: &[Sym]) -> bool
    ensures { result ≡ is_bare classes.now right.now }
{
    match right {
        [Sym::Class(class)] => is_nothing(kind_at(classes, *class)),
        _ => false,
    }
}
