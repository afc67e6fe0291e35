// Making a machine of a code.
ghost use Rattle.std.specs.Prelude.{◌≡◌, ◌⊎◌, true, None, [], ◌∷◌, IfOk, IfErr, vec_capacity};
ghost use Rattle.gg_base.specs.declared.limits.TheConstants.{FRAME_LIMIT};

use crate::area::{Laid, lay_out, zeros};
use crate::frame::Frame32;
use crate::label::{Names, area_labels, code_labels};
use crate::machine::Machine32;
use gg_base::Name;
use gg_base::limits::{FRAME_LIMIT, STACK_SIZE, STACK_TOP};
use l32_core::Code32;
use std::alloc::{AllocError, AllocFailed, Global};
use vax_machine::area::Layout;

/// Why a code can't be run. Each name is the first such one in the text's order.
#[derive(Drop)]
pub enum Load32Fault {
    NoMemory,
    /// This label stands twice, or has a service's name.
    DoubleLabel(Name),
    /// This name is none that is defined for its use: in an operand a label of the data area, behind a branch a label of the code, behind
    /// `call` a label of the code or a service.
    UndefinedLabel(Name),
    /// No label of the code is `_main`.
    NoMain,
    /// The data area is longer than `AREA_LIMIT` bytes.
    TooLarge,
}

impl From<AllocError> for Load32Fault {
    ghost use Rattle.std.specs.Prelude.{◌≡◌};
    ghost use Rattle.l32_machine.specs.declared.loading.Load32Fault.TheVariants.{NoMemory};

    ghost from_gives = { λ _ e. e ≡ NoMemory };

    fn from(_: AllocError) -> Self {
        Load32Fault::NoMemory
    }
}

impl<T: Drop> From<AllocFailed<T>> for Load32Fault {
    ghost use Rattle.std.specs.Prelude.{◌≡◌};
    ghost use Rattle.l32_machine.specs.declared.loading.Load32Fault.TheVariants.{NoMemory};

    ghost from_gives = { λ _ e. e ≡ NoMemory };

    fn from(_: AllocFailed<T>) -> Self {
        Load32Fault::NoMemory
    }
}

ghost use Rattle.l32_core.specs.Valid.{is_code};
ghost use Rattle.l32_machine.specs.declared.loading.Load32Fault.TheVariants as loading_fault;
ghost use Rattle.l32_machine.specs.Loading.{Loaded, double_label_of, IsDouble, first_frame};

// The fault of a label that stands twice.
fn double(alloc: Global, name: &Name) -> Load32Fault
    ensures { (result ≡ loading_fault.NoMemory) ⊎ (result ≡ loading_fault.DoubleLabel name.now) }
{
    match Name::copy_of(alloc, name.as_slice()) {
        Ok(name) => Load32Fault::DoubleLabel(name),
        Err(_) => Load32Fault::NoMemory,
    }
}

// The names of a code in which no label stands twice.
fn names<'a>(alloc: Global, code: &'a Code32) -> Result<Names<'a>, Load32Fault>
    ensures loads { IfOk result (λ n. (n.layout.now ≡ code.now.area) × (n.items.now ≡ code.now.items) × (double_label_of code.now ≡ None)) }
    ensures faulty { IfErr result (λ e. (e ≡ loading_fault.NoMemory) ⊎ IsDouble (double_label_of code.now) e) }
{
    let layout = code.area.as_slice();
    let items = code.items.as_slice();
    let in_code = code_labels(alloc, items)?;
    let in_area = area_labels(alloc, layout, items, &in_code.places)?;
    match in_area.double.or(in_code.double) {
        Some(name) => Err(double(alloc, name)),
        None => Ok(Names {
            layout,
            items,
            area: in_area.places,
            code: in_code.places,
        }),
    }
}

/// A machine behind the call of `_main`, which is no step of the run. It takes all the memory that the run needs.
pub fn load32<'a>(
    alloc: Global,
    code: &'a Code32,
    input: &'a [u8],
) -> Result<Machine32<'a>, Load32Fault>
    requires { is_code code.now ≡ true }
    ensures { Loaded code.now input.now result }
{
    let names = names(alloc, code)?;
    names.load(alloc, input)
}

// The live frames as the run begins: that of `_main`, and room for as many as there may be.
fn first_frames(alloc: Global) -> Result<Vec<Frame32>, AllocError>
    ensures frames { IfOk result (λ v. v.items ≡ first_frame ∷ []) }
    ensures room { IfOk result (λ v. vec_capacity v ≡ FRAME_LIMIT) }
{
    let mut frames = Vec::with_capacity(alloc, FRAME_LIMIT as usize)?;
    frames.push_reserved(Frame32 {
        general: [0, 0, 0, 0, 0, 0, 0, 0, 0, 0, 0, 0],
        fp: 0,
        sp: STACK_TOP,
        back: None,
    });
    Ok(frames)
}

impl<'a> Names<'a> {
    ghost use Rattle.std.specs.List.{list_all};
    ghost use Rattle.vax_core.specs.Valid.{is_area_item};
    ghost use Rattle.vax_machine.specs.LaidOut.{IsLaidOut};
    ghost use Rattle.l32_machine.specs.Loading.{code_of, start};
    ghost use Rattle.l32_machine.specs.View.{state};

    // A machine behind the call of `_main`, of a code in which no label stands twice.
    fn load(&self, alloc: Global, input: &'a [u8]) -> Result<Machine32<'a>, Load32Fault>
        requires valid { is_code (code_of self.now) ≡ true }
        requires single { double_label_of (code_of self.now) ≡ None }
        ensures { Loaded (code_of self.now) input.now result }
    {
        if let Some(name) = self.undefined_area_label() {
            return Err(Load32Fault::UndefinedLabel(Name::copy_of(alloc, name.as_slice())?));
        }
        if let Some(name) = self.undefined_label() {
            return Err(Load32Fault::UndefinedLabel(Name::copy_of(alloc, name.as_slice())?));
        }
        if !self.has_main() {
            return Err(Load32Fault::NoMain);
        }
        let Some(layout) = lay_out(alloc, self.layout)? else {
            return Err(Load32Fault::TooLarge);
        };
        Ok(self.begin(alloc, &layout, input)?)
    }

    // The machine as its run begins.
    fn begin(
        &self,
        alloc: Global,
        layout: &Layout,
        input: &'a [u8],
    ) -> Result<Machine32<'a>, AllocError>
        requires laid { IsLaidOut self.now.layout.now layout.now }
        requires valid { list_all is_area_item self.now.layout.now ≡ true }
        ensures { IfOk result (λ m. state m ≡ start (code_of self.now) input.now) }
    {
        let laid = Laid {
            names: self,
            layout,
        };
        Ok(Machine32 {
            program: laid.link(alloc)?,
            place: self.main_place(),
            general: [0, 0, 0, 0, 0, 0, 0, 0, 0, 0, 0, 0],
            fp: STACK_TOP,
            sp: STACK_TOP,
            area: laid.area_bytes(alloc)?,
            stack: zeros(alloc, STACK_SIZE as usize)?,
            frames: first_frames(alloc)?,
            input,
            over: None,
        })
    }
}
