// Terms that agree: whatever longwords the symbols are worth, they are worth the same.
ghost use Rattle.std.specs.Prelude.{◌≡◌, OnOk};
ghost use Rattle.term_core.specs.Shape.{shape_of};
ghost use Rattle.vax_pairs.specs.Scopes.{IsPlain};
ghost use Rattle.vax_pairs.specs.SameTrees.{Agree};

use crate::doubt::Doubt;
use gg_base::Size;
use std::alloc::Global;
use term_core::{Form, Term, form_of, norm, same_term};
use vax_pairs::laws::same_norms_agree;

/// The two sizes are one.
pub fn same_size(a: Size, b: Size) -> Result<(), Doubt>
    ensures { OnOk result (a ≡ b) }
{
    match (a, b) {
        (Size::Byte, Size::Byte) | (Size::Word, Size::Word) | (Size::Long, Size::Long) => Ok(()),
        _ => Err(Doubt::NotShown),
    }
}

// The term reads no memory.
fn plain(t: &Term) -> Result<(), Doubt>
    ensures { OnOk result (IsPlain (shape_of t.now)) }
{
    match form_of(t) {
        Form::Constant(_) | Form::Symbol(_) => Ok(()),
        Form::LastResult | Form::Memory(_, _) => Err(Doubt::NotShown),
        Form::Unary(_, t) => plain(t),
        Form::Binary(_, a, b) => {
            plain(a)?;
            plain(b)?;
            Ok(())
        }
    }
}

/// The two terms agree: they are one, or read no memory and have one normal form.
#[tactic(auto, using(crate::proofs::Agreeing::equal_agree))]
pub fn agree(alloc: Global, s: &Term, t: &Term) -> Result<(), Doubt>
    ensures { OnOk result (Agree (shape_of s.now) (shape_of t.now)) }
{
    same_norms_agree();
    if same_term(alloc, s, t)? {
        return Ok(());
    }
    plain(s)?;
    plain(t)?;
    let a = norm(alloc, s)?;
    let b = norm(alloc, t)?;
    let same = same_term(alloc, &a, &b)?;
    if !same {
        return Err(Doubt::NotShown);
    }
    Ok(())
}
