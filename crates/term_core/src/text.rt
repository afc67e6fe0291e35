// The text of terms.

ghost use Rattle.std.specs.Prelude.{◌≡◌, ◌++◌, OnOk};
ghost use Rattle.std.specs.Fmt.{decimal};
ghost use Rattle.term_core.specs.Shape.{shape_of};
ghost use Rattle.term_core.specs.Form.{shape_of_form};
ghost use Rattle.term_core.specs.Text.{size_name, term_text};

use crate::term::{Form, Term, form_of};
use gg_base::{Size, put_decimal, put_signed};
use std::alloc::AllocError;

/// The letter of a size.
pub fn size_name(size: Size) -> &'static str
    ensures { result.now ≡ size_name size }
{
    match size {
        Size::Byte => "b",
        Size::Word => "w",
        Size::Long => "l",
    }
}

/// Appends a text.
pub fn put_text(into: &mut Vec<u8>, text: &str) -> Result<(), AllocError>
    ensures { OnOk result (into.new.items ≡ into.old.items ++ text.now) }
{
    into.extend_from_slice(text.as_bytes())?;
    Ok(())
}

/// Appends the text of a term.
#[cycle(put)]
pub fn put_term(into: &mut Vec<u8>, t: &Term) -> Result<(), AllocError>
    ensures { OnOk result (into.new.items ≡ into.old.items ++ term_text (shape_of t.now)) }
{
    put_form(into, form_of(t))
}

#[cycle(put)]
fn put_form(into: &mut Vec<u8>, t: Form<'_>) -> Result<(), AllocError>
    ensures { OnOk result (into.new.items ≡ into.old.items ++ term_text (shape_of_form t.entry)) }
{
    match t {
        Form::Constant(n) => {
            put_text(into, "K")?;
            put_signed(into, n)
        }
        Form::Symbol(i) => {
            put_text(into, "V")?;
            put_decimal(into, i as u64)
        }
        Form::LastResult => put_text(into, "Res"),
        Form::Memory(size, a) => {
            put_text(into, "Mem(")?;
            put_text(into, size_name(size))?;
            put_text(into, ",")?;
            put_term(into, a)?;
            put_text(into, ")")
        }
        Form::Unary(op, t) => {
            put_text(into, op.name())?;
            put_text(into, "(")?;
            put_term(into, t)?;
            put_text(into, ")")
        }
        Form::Binary(op, a, b) => {
            put_text(into, op.name())?;
            put_text(into, "(")?;
            put_term(into, a)?;
            put_text(into, ",")?;
            put_term(into, b)?;
            put_text(into, ")")
        }
    }
}
