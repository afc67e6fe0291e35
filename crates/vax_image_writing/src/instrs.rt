// Instructions behind what stands in a text section.
ghost use Rattle.std.specs.Prelude.{◌≡◌, ◌+◌, ◌<◌, ◌^◌, [], length, OnOk, Some};
ghost use Rattle.std.specs.Option.{option_copied};
ghost use Rattle.vax_core.specs.declared.code.CodeItem.TheVariants as item_kind;
ghost use Rattle.vax_core.specs.Ops.{shape};
ghost use Rattle.vax_machine.specs.Functions.{action_of};
ghost use Rattle.vax_image_format.specs.Specifiers.{field, ref};
ghost use Rattle.vax_image_format.specs.Instructions.{operands_refs, before_field, way, plain_bytes, head_bytes, target_size, item_bytes};
ghost use Rattle.vax_image_format.specs.Instructions.{item_refs};
ghost use Rattle.vax_image_writing.specs.Written.{end_of, IsPut};

use crate::section::Section;
use gg_base::{Name, Size, w32};
use std::alloc::{AllocError, Global};
use vax_core::{Addr, Instr, Op};
use vax_image_format::{Ref, is_branch, is_call, is_conditional, opcode, opposite};

// The way from the end of a field to a label; 0 to a service, which has no place.
fn way(end: u32, to: Option<u32>) -> u32
    ensures { result ≡ way end to }
{
    match to {
        None => 0,
        Some(to) => w32::sub(to, end),
    }
}

// How many bytes the field of a target has: a branch's form says it, and a call has 4.
fn target_size(form: Size, i: &Instr) -> Size
    ensures { result ≡ target_size form i.now }
{
    if is_branch(i.op) { form } else { Size::Long }
}

impl Section {
    fn several(&mut self, bytes: &[u8]) -> Result<(), AllocError>
        ensures { OnOk result (IsPut self.old self.new bytes.now []) }
    {
        self.bytes.extend_from_slice(bytes)?;
        Ok(())
    }

    // What stands before a branch's field.
    fn before_field(&mut self, form: Size, conditional: bool, op: Op) -> Result<(), AllocError>
        ensures { OnOk result (IsPut self.old self.new (before_field form conditional op) []) }
    {
        match (form, conditional) {
            (Size::Byte, _) => self.byte(opcode(op)),
            (Size::Word, false) => self.byte(0x31),
            (Size::Word, true) => self.several(&[opposite(op), 0x03, 0x31]),
            (Size::Long, false) => self.several(&[0x17, 0xef]),
            (Size::Long, true) => self.several(&[opposite(op), 0x06, 0x17, 0xef]),
        }
    }

    // The opcode and the operands.
    #[tactic(auto, using(crate::proofs::WrittenLaws::operands_behind, vax_core::proofs::ShapeLaws::few_operands))]
    fn plain(&mut self, alloc: Global, i: &Instr) -> Result<(), AllocError>
        requires { length self.old.bytes.items + 21 < 2 ^ 32 }
        ensures { OnOk result (IsPut self.old self.new (plain_bytes i.now)
            (operands_refs (end_of self.old + 1) (shape i.now.op).operands i.now.operands)) }
    {
        self.byte(opcode(i.op))?;
        self.operands(alloc, i.op.shape().operands, i.operands.as_slice())
    }

    // What stands before the field of a target, or all of an instruction without one.
    #[tactic(auto, using(crate::proofs::HeadLaws::head_facts))]
    fn head(&mut self, alloc: Global, form: Size, i: &Instr) -> Result<(), AllocError>
        requires { length self.old.bytes.items + 21 < 2 ^ 32 }
        ensures { OnOk result (IsPut self.old self.new (head_bytes form i.now)
            (operands_refs (end_of self.old + 1) (shape i.now.op).operands i.now.operands)) }
    {
        if is_branch(i.op) {
            return self.before_field(form, is_conditional(i.op), i.op);
        }
        self.plain(alloc, i)?;
        if is_call(i.op) {
            return self.byte(0xef);
        }
        Ok(())
    }

    // The field of a target.
    fn target(&mut self, alloc: Global, size: Size, n: u32, label: &Name) -> Result<(), AllocError>
        requires { length self.old.bytes.items < 2 ^ 32 }
        ensures { OnOk result (IsPut self.old self.new (field size n) (ref (end_of self.old) (Some label.now) 0)) }
    {
        let place = self.bytes.len() as u32;
        let name = Some(Name::copy_of(alloc, label.as_slice())?);
        let addr = Addr { name, offset: 0 };
        self.refs.push(Ref { place, addr })?;
        self.number(size, n)
    }

    /// An instruction, whose branch has this form and whose label stands at this place.
    #[tactic(auto, using(crate::proofs::HeadLaws::instr_facts))]
    pub fn instr(
        &mut self,
        alloc: Global,
        form: Size,
        to: Option<u32>,
        i: &Instr,
    ) -> Result<(), AllocError>
        requires { length self.old.bytes.items + 64 < 2 ^ 32 }
        ensures { OnOk result (IsPut self.old self.new (item_bytes (λ label. to) (end_of self.old) form (item_kind.Instr i.now))
            (item_refs (end_of self.old) form (item_kind.Instr i.now))) }
    {
        self.head(alloc, form, i)?;
        let Some(label) = &i.target else {
            return Ok(());
        };
        let size = target_size(form, i);
        let end = self.bytes.len() as u32 + size.bytes();
        self.target(alloc, size, way(end, to), label)
    }
}
