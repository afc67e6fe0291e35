// One token at a time, and the levels.
ghost use Rattle.std.specs.Prelude.{◌≡◌, ◌≤◌, ◌<◌, ◌+◌, ◌↔◌, ◌∷◌, ℕ, List, length, IfSome, IfNone, IfOk, IfErr, IsTrue, false};
ghost use Rattle.std.specs.Prelude.{if◌then◌else◌};
ghost use Rattle.std.specs.Bool.{MatchBool};
ghost use Rattle.c_tokens.specs.declared.token.Token.TheVariants as token;
ghost use Rattle.c_tokens.specs.declared.marks.Mark.{Mark};
ghost use Rattle.c_tokens.specs.declared.words.Key.TheVariants as keys;
ghost use Rattle.c_syntax_goals.specs.declared.fault.Fault.TheVariants as faults;
ghost use Rattle.c_phrases.specs.Classes.{placed, seen, word, sign, is_kept, mark_class, key_class, class_of};
ghost use Rattle.c_phrases.specs.Operators.{binary_mark, prefix_mark, step_mark, assign_mark};
ghost use Rattle.c_phrases.specs.Fronts.{IsNot};
ghost use Rattle.c_phrases.specs.Takes.{binary_of, prefix_of, step_of, assign_of, is_type_word, IsTypeWord, NoTypeWord, NoMark};
ghost use Rattle.c_phrases.specs.Takes.{NoBinary, NoPrefix, NoStep, NoAssign};

use crate::level::Level;
use c_phrases::operator::{AssignOperator, BinaryOperator, PrefixOperator, StepOperator};
use c_syntax_goals::fault::Fault;
use c_tokens::{Key, Mark, Spanned, Token};

/// The fault of the token at the front, that it may not stand there.
#[tactic(auto, using(c_syntax_goals::proofs::Faults::length_seen))]
pub fn not_here(tokens: &[Spanned]) -> Fault
    ensures { result ≡ faults.NotHere (length (seen tokens.now)) }
{
    Fault::NotHere(tokens.len())
}

fn is_mark(kind: &Token, wanted: Mark) -> bool
    ensures { IsTrue result ↔ kind.now ≡ token.Mark wanted }
{
    match kind {
        Token::Mark(mark) => *mark == wanted,
        _ => false,
    }
}

fn is_key(kind: &Token, wanted: Key) -> bool
    ensures { IsTrue result ↔ kind.now ≡ token.Key wanted }
{
    match kind {
        Token::Key(key) => *key == wanted,
        _ => false,
    }
}

/// The offset of the wanted mark at the front, and what stands behind it.
pub fn take_mark(tokens: &[Spanned], wanted: Mark) -> Option<(u32, &[Spanned])>
    ensures found { IfSome result (λ x. seen tokens.now ≡ sign wanted (if is_kept (mark_class wanted) then x.0 else 0) ∷ seen x.1.now) }
    ensures none { IfNone result (IsNot (token.Mark wanted) (seen tokens.now)) }
{
    let [first, rest @ ..] = tokens else {
        return None;
    };
    if is_mark(&first.kind, wanted) {
        return Some((first.start, rest));
    }
    None
}

/// The offset of the wanted keyword at the front, and what stands behind it.
pub fn take_key(tokens: &[Spanned], wanted: Key) -> Option<(u32, &[Spanned])>
    ensures found { IfSome result (λ x. seen tokens.now ≡ word wanted (if is_kept (key_class wanted) then x.0 else 0) ∷ seen x.1.now) }
    ensures none { IfNone result (IsNot (token.Key wanted) (seen tokens.now)) }
{
    let [first, rest @ ..] = tokens else {
        return None;
    };
    if is_key(&first.kind, wanted) {
        return Some((first.start, rest));
    }
    None
}

/// What stands behind the wanted mark, whose offset is not kept.
pub fn want_mark(tokens: &[Spanned], wanted: Mark) -> Result<&[Spanned], Fault>
    requires { is_kept (mark_class wanted) ≡ false }
    ensures found { IfOk result (λ rest. seen tokens.now ≡ sign wanted 0 ∷ seen rest.now) }
    ensures other { IfErr result (λ f. (f ≡ faults.NotHere (length (seen tokens.now))) × IsNot (token.Mark wanted) (seen tokens.now)) }
{
    match take_mark(tokens, wanted) {
        Some((_, rest)) => Ok(rest),
        None => Err(not_here(tokens)),
    }
}

/// The binary operator at the front, its offset, and what stands behind it.
#[tactic(auto, using(crate::proofs::Seen::no_binary))]
pub fn take_binary(tokens: &[Spanned]) -> Option<(BinaryOperator, u32, &[Spanned])>
    ensures found { IfSome result (λ x. seen tokens.now ≡ sign (binary_mark x.0) x.1 ∷ seen x.2.now) }
    ensures none { IfNone result (NoBinary (seen tokens.now)) }
{
    let (mark, at, rest) = front_mark(tokens)?;
    let operator = binary_of(mark)?;
    Some((operator, at, rest))
}

/// The operator at the front that stands in front of its operand.
#[tactic(auto, using(crate::proofs::Seen::no_prefix))]
pub fn take_prefix(tokens: &[Spanned]) -> Option<(PrefixOperator, u32, &[Spanned])>
    ensures found { IfSome result (λ x. seen tokens.now ≡ sign (prefix_mark x.0) x.1 ∷ seen x.2.now) }
    ensures none { IfNone result (NoPrefix (seen tokens.now)) }
{
    let (mark, at, rest) = front_mark(tokens)?;
    let operator = prefix_of(mark)?;
    Some((operator, at, rest))
}

/// The `++` or `--` at the front.
#[tactic(auto, using(crate::proofs::Seen::no_step))]
pub fn take_step(tokens: &[Spanned]) -> Option<(StepOperator, u32, &[Spanned])>
    ensures found { IfSome result (λ x. seen tokens.now ≡ sign (step_mark x.0) x.1 ∷ seen x.2.now) }
    ensures none { IfNone result (NoStep (seen tokens.now)) }
{
    let (mark, at, rest) = front_mark(tokens)?;
    let operator = step_of(mark)?;
    Some((operator, at, rest))
}

/// The assignment operator at the front.
#[tactic(auto, using(crate::proofs::Seen::no_assign))]
pub fn take_assign(tokens: &[Spanned]) -> Option<(AssignOperator, u32, &[Spanned])>
    ensures found { IfSome result (λ x. seen tokens.now ≡ sign (assign_mark x.0) x.1 ∷ seen x.2.now) }
    ensures none { IfNone result (NoAssign (seen tokens.now)) }
{
    let (mark, at, rest) = front_mark(tokens)?;
    let operator = assign_of(mark)?;
    Some((operator, at, rest))
}

/// The level behind what opens here.
#[tactic(auto, using(c_syntax_goals::proofs::Faults::length_seen))]
pub fn open_levels(level: Level, by: u32, tokens: &[Spanned]) -> Result<Level, Fault>
    ensures opened { IfOk result (λ m. (m ≡ level + by) × (level + by ≤ 200)) }
    ensures deep { IfErr result (λ f. (f ≡ faults.TooDeep (length (seen tokens.now))) × (200 < level + by)) }
{
    match level.opened(by) {
        Some(opened) => Ok(opened),
        None => Err(Fault::TooDeep(tokens.len())),
    }
}

fn binary_of(mark: Mark) -> Option<BinaryOperator>
    ensures { result ≡ binary_of mark }
{
    match mark {
        Mark::OrOr => Some(BinaryOperator::OrOr),
        Mark::AndAnd => Some(BinaryOperator::AndAnd),
        Mark::Or => Some(BinaryOperator::Or),
        Mark::Xor => Some(BinaryOperator::Xor),
        Mark::And => Some(BinaryOperator::And),
        Mark::Equal => Some(BinaryOperator::Equal),
        Mark::NotEqual => Some(BinaryOperator::NotEqual),
        Mark::Less => Some(BinaryOperator::Less),
        Mark::LessEqual => Some(BinaryOperator::LessEqual),
        Mark::Greater => Some(BinaryOperator::Greater),
        Mark::GreaterEqual => Some(BinaryOperator::GreaterEqual),
        Mark::ShiftLeft => Some(BinaryOperator::ShiftLeft),
        Mark::ShiftRight => Some(BinaryOperator::ShiftRight),
        Mark::Plus => Some(BinaryOperator::Add),
        Mark::Minus => Some(BinaryOperator::Subtract),
        Mark::Star => Some(BinaryOperator::Multiply),
        Mark::Slash => Some(BinaryOperator::Divide),
        Mark::Percent => Some(BinaryOperator::Remainder),
        _ => None,
    }
}

fn prefix_of(mark: Mark) -> Option<PrefixOperator>
    ensures { result ≡ prefix_of mark }
{
    match mark {
        Mark::Plus => Some(PrefixOperator::Plus),
        Mark::Minus => Some(PrefixOperator::Minus),
        Mark::Tilde => Some(PrefixOperator::Complement),
        Mark::Exclamation => Some(PrefixOperator::Not),
        Mark::Star => Some(PrefixOperator::Indirection),
        Mark::And => Some(PrefixOperator::Address),
        _ => None,
    }
}

fn step_of(mark: Mark) -> Option<StepOperator>
    ensures { result ≡ step_of mark }
{
    match mark {
        Mark::Increment => Some(StepOperator::Increment),
        Mark::Decrement => Some(StepOperator::Decrement),
        _ => None,
    }
}

fn assign_of(mark: Mark) -> Option<AssignOperator>
    ensures { result ≡ assign_of mark }
{
    match mark {
        Mark::Assign => Some(AssignOperator::Assign),
        Mark::AddAssign => Some(AssignOperator::Add),
        Mark::SubtractAssign => Some(AssignOperator::Subtract),
        Mark::MultiplyAssign => Some(AssignOperator::Multiply),
        Mark::DivideAssign => Some(AssignOperator::Divide),
        Mark::RemainderAssign => Some(AssignOperator::Remainder),
        Mark::AndAssign => Some(AssignOperator::And),
        Mark::XorAssign => Some(AssignOperator::Xor),
        Mark::OrAssign => Some(AssignOperator::Or),
        Mark::ShiftLeftAssign => Some(AssignOperator::ShiftLeft),
        Mark::ShiftRightAssign => Some(AssignOperator::ShiftRight),
        _ => None,
    }
}

fn front_mark(tokens: &[Spanned]) -> Option<(Mark, u32, &[Spanned])>
    ensures found { IfSome result (λ x. seen tokens.now ≡ sign x.0 (if is_kept (mark_class x.0) then x.1 else 0) ∷ seen x.2.now) }
    ensures none { IfNone result (NoMark (seen tokens.now)) }
{
    let [first, rest @ ..] = tokens else {
        return None;
    };
    match &first.kind {
        Token::Mark(mark) => Some((*mark, first.start, rest)),
        _ => None,
    }
}

fn is_type_word(key: Key) -> bool
    ensures { result ≡ is_type_word key }
{
    matches!(
        key,
        Key::Int | Key::Char | Key::Short | Key::Unsigned | Key::Void
    )
}

/// Whether the words of a type begin here.
pub fn begins_type(tokens: &[Spanned]) -> bool
    ensures { MatchBool result (IsTypeWord (seen tokens.now)) (NoTypeWord (seen tokens.now)) }
{
    let [first, ..] = tokens else {
        return false;
    };
    match &first.kind {
        Token::Key(key) => is_type_word(*key),
        _ => false,
    }
}
