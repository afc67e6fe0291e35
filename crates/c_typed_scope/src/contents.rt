// What objects hold at first: constants that are wanted, and the bytes and links of initialisers.
ghost use Rattle.std.specs.Prelude.{◌≡◌, ◌≤◌, ◌<◌, ◌++◌, ◌∷◌, [], ◌+◌, Ok, Err, OnOk, length};
ghost use Rattle.c_types.specs.Typed.{expression_of};
ghost use Rattle.c_types.specs.Answers.{Gives};
ghost use Rattle.c_typed_scope.specs.Answers.{OnlyTurns};
ghost use Rattle.c_typed_scope.specs.Views.{area, filled_so_far};
ghost use Rattle.c_typed_scope.specs.Contents.{wanted, length_of, linked, linked_place, low_bytes, with_value, with_link};
ghost use Rattle.c_typed_scope.specs.Contents.{address_at, element_of, filled, filled_to, with_contents};

use crate::data::Data;
use c_types::constant::constant;
use c_types::fault::bad_type;
use c_types::{CType, Expression, Place, TypeFault, TypeKind, Variable};
use gg_base::Bytes;
use std::alloc::{AllocError, Global};
use tree_core::{Link, Links, Object};

/// The bytes and links that an initialiser has written so far.
#[derive(Drop)]
pub struct Contents {
    pub bytes: Vec<u8>,
    pub links: Vec<Link>,
}

fn bad_constant<T>(place: u32) -> Result<T, TypeFault>
    ensures { result ≡ Err (TypeFault.At place TypeKind.BadConst) }
{
    Err(TypeFault::At {
        place,
        kind: TypeKind::BadConst,
    })
}

/// The value of a length that is written in brackets, a constant from 1 to `AREA_LIMIT`; BadConst at this place where it is
/// none.
#[tactic(auto, unfolding(crate::specs::Contents::length_of))]
pub fn length_of(place: u32, x: &Expression) -> Result<u32, TypeFault>
    ensures { Gives (λ n. n) result (wanted (length_of (expression_of x.now)) place) }
{
    if !x.ctype().is_integer() {
        return bad_constant(place);
    }
    match constant(x) {
        None => bad_constant(place),
        Some(value) => {
            if 0 < value && value < 1_048_577 {
                Ok(value)
            } else {
                bad_constant(place)
            }
        }
    }
}

// The object whose address a pointer may be initialised with.
#[tactic(auto, unfolding(crate::specs::Contents::linked))]
fn linked(x: &Expression) -> Option<u32>
    ensures { result ≡ linked (expression_of x.now) }
{
    match x {
        Expression::Literal(object, _) => Some(*object),
        Expression::Array(_, variable, _) => match variable {
            Variable::Global(object) => Some(*object),
            Variable::Automatic(_)
            | Variable::Parameter(_)
            | Variable::Static(_)
            | Variable::InBlock(_) => None,
        },
        Expression::Address(_, place) => linked_place(place),
        _ => None,
    }
}

fn linked_place(place: &Place) -> Option<u32>
    ensures { result ≡ linked_place (place_of place.now) }
{
    match place {
        Place::Variable(_, variable) => match variable {
            Variable::Global(object) => Some(*object),
            Variable::Automatic(_)
            | Variable::Parameter(_)
            | Variable::Static(_)
            | Variable::InBlock(_) => None,
        },
        _ => None,
    }
}

ghost use Rattle.c_types.specs.Typed.{place_of};

fn address_of(objects: &[Object], number: u32) -> u32
    ensures { result ≡ address_at objects.now number }
{
    match objects.get(number as usize) {
        None => 0,
        Some(object) => object.address,
    }
}

impl Contents {
    /// Nothing yet.
    pub fn new(alloc: Global) -> Self
        ensures { filled_so_far result ≡ record { bytes = []; links = [] } }
    {
        Contents {
            bytes: Vec::new(alloc),
            links: Vec::new(alloc),
        }
    }

    // The low bytes of a number, the lowest first.
    fn put_number(&mut self, size: u32, value: u32) -> Result<(), AllocError>
        requires { size ≤ 4 }
        ensures { OnOk result (filled_so_far self.new ≡ with_value size value (filled_so_far self.old)) }
    {
        self.bytes
            .extend_from_slice(&value.to_le_bytes()[..size as usize])?;
        Ok(())
    }

    // The address of an object.
    pub(crate) fn put_link(&mut self, objects: &[Object], object: u32) -> Result<(), AllocError>
        requires { length self.old.bytes.items < 2 ^ 32 }
        ensures { OnOk result (filled_so_far self.new ≡ with_link objects.now object (filled_so_far self.old)) }
    {
        let at = self.bytes.len() as u32;
        self.put_number(4, address_of(objects, object))?;
        self.links.push(Link { at, object })?;
        Ok(())
    }

    // An initialiser of a pointer type is the null constant or an object's address.
    #[tactic(auto, unfolding(crate::specs::Contents::linked))]
    fn put_pointer(
        &mut self,
        to: CType,
        place: u32,
        x: &Expression,
        objects: &[Object],
    ) -> Result<(), TypeFault>
        ensures { OnlyTurns result (filled_so_far self.new)
            (pointer_element to place (expression_of x.now) objects.now (filled_so_far self.old)) }
    {
        if x.is_null() {
            self.put_number(4, 0)?;
            return Ok(());
        }
        let Some(object) = linked(x) else {
            return bad_constant(place);
        };
        if !to.is_same(x.ctype()) {
            return bad_type(place);
        }
        if self.bytes.len() > 0xffff_ffff {
            return Err(TypeFault::NoMemory);
        }
        self.put_link(objects, object)?;
        Ok(())
    }

    /// One element of an initialiser, behind those that are written; the place is its first token's.
    #[tactic(auto, unfolding(crate::specs::Contents::element_of))]
    pub fn put(
        &mut self,
        to: CType,
        place: u32,
        x: &Expression,
        objects: &[Object],
    ) -> Result<(), TypeFault>
        ensures { OnlyTurns result (filled_so_far self.new)
            (element_of to place (expression_of x.now) objects.now (filled_so_far self.old)) }
    {
        match to {
            CType::Void => bad_type(place),
            CType::Integer(of) => match constant(x) {
                None => bad_constant(place),
                Some(value) => {
                    if !x.ctype().is_integer() {
                        return bad_type(place);
                    }
                    self.put_number(of.size(), value)?;
                    Ok(())
                }
            },
            CType::Pointer(_, _) => self.put_pointer(to, place, x, objects),
        }
    }
}

ghost use Rattle.c_typed_scope.specs.Contents.{pointer_element};
ghost use Rattle.std.specs.Prelude.{◌^◌};

// With zeros for what is missing.
fn padded(mut bytes: Vec<u8>, size: u32) -> Result<Vec<u8>, AllocError>
    ensures { IfOk result (λ b. b.items ≡ bytes.items ++ replicate (size - length bytes.items) 0) }
{
    bytes.resize(bytes.len().max(size as usize), 0)?;
    Ok(bytes)
}

ghost use Rattle.std.specs.Prelude.{◌-◌, IfOk};
ghost use Rattle.std.proofs.Math.ListN.{replicate};

fn hold(objects: &mut Vec<Object>, number: u32, bytes: Vec<u8>, links: Vec<Link>)
    ensures { objects.new.items ≡ with_contents number (record { bytes = bytes.items; links = links.items }) objects.old.items }
{
    if (number as usize) < objects.len() {
        let object = &mut objects[number as usize];
        object.bytes = Bytes::from_vec(bytes);
        object.links = Links::from_vec(links);
    }
}

/// Gives an object its contents, with zeros for what is missing.
#[tactic(auto, unfolding(crate::specs::Contents::filled))]
pub fn fill(layout: &mut Data, number: u32, size: u32, contents: Contents) -> Result<(), AllocError>
    ensures { OnOk result (area layout.new ≡ filled number (filled_to size (filled_so_far contents)) (area layout.old)) }
{
    let Contents { bytes, links } = contents;
    let bytes = padded(bytes, size)?;
    hold(&mut layout.objects, number, bytes, links);
    Ok(())
}
