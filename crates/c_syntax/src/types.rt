// The words and the stars of a type.
ghost use Rattle.std.specs.Prelude.{◌≡◌, ◌∷◌, [], ℕ, length, IfOk, IfErr};
ghost use Rattle.c_syntax_goals.specs.declared.fault.Fault.TheVariants.{NoMemory};
ghost use Rattle.c_phrases.specs.Classes.{seen};
ghost use Rattle.c_syntax_goals.specs.Goals.{Want, AfterUnsigned, TypeWords};
ghost use Rattle.c_syntax_goals.specs.Types.{type_goals};
ghost use Rattle.c_syntax.specs.Leads.{Fails};
ghost use Rattle.c_syntax.specs.Reads.{ReadsInt, ReadsUnsigned, ReadsSpec, ReadsStars, ReadsType};

use crate::take::{not_here, take_key, take_mark};
use c_phrases::operator::Spec;
use c_phrases::tree::{Stars, TypeName};
use c_syntax_goals::fault::Fault;
use c_tokens::{Key, Mark, Spanned};
use std::alloc::Global;

// `["int"]`
#[tactic(auto, using(crate::proofs::TypeExits::int_none))]
fn int_behind(tokens: &[Spanned]) -> (Option<u32>, &[Spanned])
    ensures { ReadsInt (seen tokens.now) result.0 (seen result.1.now) }
{
    match take_key(tokens, Key::Int) {
        Some((at, rest)) => (Some(at), rest),
        None => (None, tokens),
    }
}

// Behind `unsigned`, which stands at the offset.
fn unsigned(tokens: &[Spanned], at: u32) -> Result<(Spec, &[Spanned]), Fault>
    ensures read { IfOk result (λ x. ReadsUnsigned at (seen tokens.now) x.0 (seen x.1.now)) }
    ensures fails { (n : ℕ) → IfErr result (Fails (Want (AfterUnsigned at)) n (seen tokens.now)) }
{
    if let Some((char_at, rest)) = take_key(tokens, Key::Char) {
        return Ok((Spec::UnsignedChar { at, char_at }, rest));
    }
    if let Some((short_at, rest)) = take_key(tokens, Key::Short) {
        let (int_at, rest) = int_behind(rest);
        return Ok((
            Spec::UnsignedShort {
                at,
                short_at,
                int_at,
            },
            rest,
        ));
    }
    Err(not_here(tokens))
}

/// `spec`
pub fn spec(tokens: &[Spanned]) -> Result<(Spec, &[Spanned]), Fault>
    ensures read { IfOk result (λ x. ReadsSpec (seen tokens.now) x.0 (seen x.1.now)) }
    ensures fails { (n : ℕ) → IfErr result (Fails (Want TypeWords) n (seen tokens.now)) }
{
    if let Some((at, rest)) = take_key(tokens, Key::Int) {
        return Ok((Spec::Int { at }, rest));
    }
    if let Some((at, rest)) = take_key(tokens, Key::Char) {
        return Ok((Spec::Char { at }, rest));
    }
    if let Some((at, rest)) = take_key(tokens, Key::Void) {
        return Ok((Spec::Void { at }, rest));
    }
    if let Some((at, rest)) = take_key(tokens, Key::Short) {
        let (int_at, rest) = int_behind(rest);
        return Ok((Spec::Short { at, int_at }, rest));
    }
    if let Some((at, rest)) = take_key(tokens, Key::Unsigned) {
        return unsigned(rest, at);
    }
    Err(not_here(tokens))
}

/// `stars`
#[tactic(auto, using(crate::proofs::TypeExits::stars_begin, crate::proofs::TypeExits::stars_more, crate::proofs::TypeExits::stars_end))]
pub fn stars(alloc: Global, tokens: &[Spanned]) -> Result<(Stars, &[Spanned]), Fault>
    ensures read { IfOk result (λ x. ReadsStars (seen tokens.now) x.0 (seen x.1.now)) }
    ensures fails { IfErr result (λ f. f ≡ NoMemory) }
{
    let mut offsets = Vec::new(alloc);
    let mut rest = tokens;
    while let Some((at, after)) = take_mark(rest, Mark::Star) {
        offsets.push(at)?;
        rest = after;
    }
    Ok((Stars::from_vec(offsets), rest))
}

/// `spec stars`
pub fn type_name(alloc: Global, tokens: &[Spanned]) -> Result<(TypeName, &[Spanned]), Fault>
    ensures read { IfOk result (λ x. ReadsType (seen tokens.now) x.0 (seen x.1.now)) }
    ensures fails { (n : ℕ) → IfErr result (Fails type_goals n (seen tokens.now)) }
{
    let (spec, rest) = spec(tokens)?;
    let (stars, rest) = stars(alloc, rest)?;
    Ok((TypeName { spec, stars }, rest))
}
