// Functions and programs.
ghost use Rattle.std.specs.Prelude.{◌≡◌, ◌++◌, ◌∷◌, [], IfOk, OnOk, map, length};
ghost use Rattle.c_program.specs.Programs.{program, routine};
ghost use Rattle.c_sound.specs.Fits.{AreBytes};
ghost use Rattle.c_lower_scheme.specs.Programs as programs;
ghost use Rattle.c_lower_scheme.specs.Spelling.{spelled_all};
ghost use Rattle.c_lower_code.specs.Bytes.{AllHoldBytes};
ghost use Rattle.c_lower_parts.specs.Views.{all_items, done, destination};

use crate::lowerer::Lowerer;
use c_lower_parts::flow::{claimed, two_done};
use c_lower_parts::item::Item;
use c_lower_parts::part::{Destination, Emitted, Exits, Frame, after};
use c_lower_parts::spelling::spelled;
use c_program::{Program, Routine};
use gg_base::{Bytes, Name, NoMemory, number_of};
use std::alloc::Global;
use tree_core::{
    Link, Links, LocalNumbers, Object, Objects, TreeFn, TreeFns, TreeItem, TreeItems, TreeProgram,
};

// What an object holds.
fn copied_bytes(alloc: Global, bytes: &[u8]) -> Result<Vec<u8>, NoMemory>
    ensures copy { IfOk result (λ v. v.items ≡ bytes.now) }
    ensures bytes { IfOk result (λ v. AreBytes bytes.now) }
{
    let mut copy = Vec::new(alloc);
    copy.extend_from_slice(bytes)?;
    Ok(copy)
}

fn copied_links(alloc: Global, links: &[Link]) -> Result<Vec<Link>, NoMemory>
    ensures { IfOk result (λ v. v.items ≡ links.now) }
{
    let mut copy = Vec::new(alloc);
    copy.extend_from_slice(links)?;
    Ok(copy)
}

fn copied_object(alloc: Global, object: &Object) -> Result<Object, NoMemory>
    ensures copy { IfOk result (λ o. o ≡ object.now) }
    ensures bytes { IfOk result (λ o. AreBytes object.now.bytes) }
{
    let label = Name::copy_of(alloc, object.label.as_slice())?;
    let bytes = Bytes::from_vec(copied_bytes(alloc, object.bytes.as_slice())?);
    let links = Links::from_vec(copied_links(alloc, object.links.as_slice())?);
    Ok(Object {
        label,
        address: object.address,
        size: object.size,
        align: object.align,
        bytes,
        links,
    })
}

fn copied_objects(alloc: Global, objects: &[Object]) -> Result<Vec<Object>, NoMemory>
    ensures copy { IfOk result (λ v. v.items ≡ objects.now) }
    ensures bytes { IfOk result (λ v. AllHoldBytes objects.now) }
{
    let mut copy = Vec::new(alloc);
    for object in objects {
        copy.push(copied_object(alloc, object)?)?;
    }
    Ok(copy)
}

// The items of a function with their trees as leaves.
fn spelled_items(alloc: Global, items: &[Item]) -> Result<Vec<TreeItem>, NoMemory>
    ensures { IfOk result (λ v. v.items ≡ spelled_all (all_items items.now)) }
{
    let mut leaves = Vec::new(alloc);
    for one in items {
        leaves.push(spelled(alloc, one)?)?;
    }
    Ok(leaves)
}

// The number of a function's first temporary: behind its automatic locals, and the address of its block if it has one.
#[tactic(auto, using(crate::proofs::Blocks::first_without, crate::proofs::Blocks::first_with))]
fn first_temporary(locals: u32, block: u32) -> Result<u32, NoMemory>
    ensures { IfOk result (λ n. n ≡ programs.first_temporary locals block) }
{
    if block == 0 {
        Ok(locals)
    } else {
        after(locals)
    }
}

// How a function is left, by the object of the stack's pointer.
#[tactic(auto, using(crate::proofs::Blocks::out_without, crate::proofs::Blocks::out_with))]
fn way_out(pointer: u32, locals: u32, block: u32) -> Destination
    ensures { destination result ≡ programs.way_out pointer locals block }
{
    if block == 0 {
        Destination::Caller
    } else {
        Destination::Release(pointer, locals)
    }
}

// What a function is lowered in.
fn frame_of(alloc: Global, pointer: u32, functions: u32, of: &Routine) -> Result<Frame, NoMemory>
    ensures locals { IfOk result (λ f. f.locals ≡ length (routine of.now).locals) }
    ensures first { IfOk result (λ f. f.first ≡ programs.first_temporary (length (routine of.now).locals) of.now.block) }
    ensures functions { IfOk result (λ f. f.functions ≡ functions) }
    ensures out { IfOk result (λ f. destination f.out ≡ programs.way_out pointer (length (routine of.now).locals) of.now.block) }
{
    let locals = number_of(of.locals.as_slice().len())?;
    Ok(Frame {
        alloc,
        locals,
        first: first_temporary(locals, of.block)?,
        functions,
        out: way_out(pointer, locals, of.block),
    })
}

// A function from its body; behind its statements it answers 0.
fn function_of(alloc: Global, of: &Routine, body: Emitted) -> Result<TreeFn, NoMemory>
    ensures { IfOk result (λ f. f ≡ programs.function_of (routine of.now) (done body)) }
{
    let items = body.items;
    let name = Name::copy_of(alloc, of.name.as_slice())?;
    let args = number_of(of.parameters.as_slice().len())?;
    let wanted = LocalNumbers::copy_of(alloc, of.registers.as_slice())?;
    let items = TreeItems::from_vec(spelled_items(alloc, &items)?);
    Ok(TreeFn {
        name,
        args,
        locals: body.free.temps,
        wanted,
        items,
    })
}

impl Lowerer {
    // What is done before a function's statements: its block is taken, if it has one.
    #[tactic(auto, using(crate::proofs::Blocks::in_without, crate::proofs::Blocks::in_with))]
    fn way_in(self, pointer: u32, block: u32, l: u32) -> Result<Emitted, NoMemory>
        ensures { IfOk result (λ r. done r ≡ programs.way_in self.frame.locals self.frame.first pointer block l) }
    {
        if block == 0 {
            Ok(self.nothing(l))
        } else {
            claimed(self.frame, pointer, block, l)
        }
    }
}

// A function's body, from the first free label on; behind its statements it answers 0.
fn body_of(
    alloc: Global,
    pointer: u32,
    functions: u32,
    of: &Routine,
    l: u32,
) -> Result<Emitted, NoMemory>
    ensures { IfOk result (λ r. done r ≡ programs.body_of pointer functions (routine of.now) l) }
{
    let frame = frame_of(alloc, pointer, functions, of)?;
    let lowerer = Lowerer { frame };
    let begin = lowerer.way_in(pointer, of.block, l)?;
    let nowhere = Exits {
        broken: 0,
        onward: 0,
    };
    let body = lowerer.row(&of.body, nowhere, begin.free.labels)?;
    let end = lowerer.answering_zero(body.free.labels)?;
    let rest = two_done(body, end)?;
    two_done(begin, rest)
}

// The functions, whose labels differ.
fn lower_all(alloc: Global, pointer: u32, routines: &[Routine]) -> Result<Vec<TreeFn>, NoMemory>
    ensures { IfOk result (λ v. v.items ≡ programs.lower_all pointer (length routines.now) (map routine routines.now) 0) }
{
    let count = number_of(routines.len())?;
    let mut functions = Vec::new(alloc);
    let mut labels = 0;
    for of in routines {
        let body = body_of(alloc, pointer, count, of, labels)?;
        labels = body.free.labels;
        functions.push(function_of(alloc, of, body)?)?;
    }
    Ok(functions)
}

/// The trees of a program: each is pure but for its root, and the functions are the program's by name, order and number of parameters.
pub fn lower(alloc: Global, source: &Program) -> Result<TreeProgram, NoMemory>
    ensures trees { IfOk result (λ q. q ≡ programs.lowered (program source.now)) }
    ensures bytes { IfOk result (λ q. AllHoldBytes source.now.objects) }
{
    let pointer = number_of(source.objects.as_slice().len().saturating_sub(2))?;
    let functions = TreeFns::from_vec(lower_all(alloc, pointer, &source.routines)?);
    let objects = Objects::from_vec(copied_objects(alloc, source.objects.as_slice())?);
    Ok(TreeProgram { functions, objects })
}
