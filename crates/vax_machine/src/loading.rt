// Making a machine of a code.
ghost use Rattle.std.specs.Prelude.{◌≡◌, ◌⊎◌, true, None, IfOk, IfErr};

use crate::area::{Laid, Layout, lay_out, zeros};
use crate::function::Conditions;
use crate::label::{Names, area_labels, code_labels};
use crate::machine::Machine;
use gg_base::Name;
use gg_base::limits::{STACK_SIZE, STACK_TOP};
use std::alloc::{AllocError, AllocFailed, Global};
use vax_core::Code;
use vax_machine_live::Frames;

/// Why a code can't be run. Each name is the first such one in the text's order.
#[derive(Drop)]
pub enum LoadFault {
    NoMemory,
    /// This label stands twice, or has a service's name.
    DoubleLabel(Name),
    /// This name is none that is defined for its use: in an operand a label of the data area, behind a branch a label of the code, behind
    /// `calls` a label of the code or a service.
    UndefinedLabel(Name),
    /// No label of the code is `_main`.
    NoMain,
    /// The data area is longer than `AREA_LIMIT` bytes.
    TooLarge,
}

impl From<AllocError> for LoadFault {
    ghost use Rattle.std.specs.Prelude.{◌≡◌};
    ghost use Rattle.vax_machine.specs.declared.loading.LoadFault.TheVariants.{NoMemory};

    ghost from_gives = { λ _ e. e ≡ NoMemory };

    fn from(_: AllocError) -> Self {
        LoadFault::NoMemory
    }
}

impl<T: Drop> From<AllocFailed<T>> for LoadFault {
    ghost use Rattle.std.specs.Prelude.{◌≡◌};
    ghost use Rattle.vax_machine.specs.declared.loading.LoadFault.TheVariants.{NoMemory};

    ghost from_gives = { λ _ e. e ≡ NoMemory };

    fn from(_: AllocFailed<T>) -> Self {
        LoadFault::NoMemory
    }
}

ghost use Rattle.vax_core.specs.Valid.{is_code};
ghost use Rattle.vax_machine.specs.declared.loading.LoadFault.TheVariants as loading_fault;
ghost use Rattle.vax_machine.specs.Loading.{Loaded, double_label_of, IsDouble};

// The fault of a label that stands twice.
fn double(alloc: Global, name: &Name) -> LoadFault
    ensures { (result ≡ loading_fault.NoMemory) ⊎ (result ≡ loading_fault.DoubleLabel name.now) }
{
    match Name::copy_of(alloc, name.as_slice()) {
        Ok(name) => LoadFault::DoubleLabel(name),
        Err(_) => LoadFault::NoMemory,
    }
}

// The names of a code in which no label stands twice.
fn names<'a>(alloc: Global, code: &'a Code) -> Result<Names<'a>, LoadFault>
    ensures loads { IfOk result (λ n. (n.layout.now ≡ code.now.area) × (n.items.now ≡ code.now.items) × (double_label_of code.now ≡ None)) }
    ensures faulty { IfErr result (λ e. (e ≡ loading_fault.NoMemory) ⊎ IsDouble (double_label_of code.now) e) }
{
    let layout = code.area.as_slice();
    let items = code.items.as_slice();
    let in_code = code_labels(alloc, items)?;
    let in_area = area_labels(alloc, layout, items, &in_code.places)?;
    match in_area.double.or(in_code.double) {
        Some(name) => Err(double(alloc, name)),
        None => Ok(Names {
            layout,
            items,
            area: in_area.places,
            code: in_code.places,
        }),
    }
}

/// A machine behind the call of `_main`, which is no step of the run; where that call breaks, the first step answers so. It takes all the
/// memory that the run needs.
pub fn load<'a>(alloc: Global, code: &'a Code, input: &'a [u8]) -> Result<Machine<'a>, LoadFault>
    requires { is_code code.now ≡ true }
    ensures { Loaded code.now input.now result }
{
    let names = names(alloc, code)?;
    names.load(alloc, input)
}

impl<'a> Names<'a> {
    ghost use Rattle.std.specs.List.{list_all};
    ghost use Rattle.vax_core.specs.Valid.{is_area_item};
    ghost use Rattle.vax_machine.specs.LaidOut.{IsLaidOut};
    ghost use Rattle.vax_machine.specs.Loading.{code_of, blank};
    ghost use Rattle.vax_machine.specs.View.{state};

    // A machine behind the call of `_main`, of a code in which no label stands twice.
    fn load(&self, alloc: Global, input: &'a [u8]) -> Result<Machine<'a>, LoadFault>
        requires valid { is_code (code_of self.now) ≡ true }
        requires single { double_label_of (code_of self.now) ≡ None }
        ensures { Loaded (code_of self.now) input.now result }
    {
        if let Some(name) = self.undefined_area_label() {
            return Err(LoadFault::UndefinedLabel(Name::copy_of(alloc, name.as_slice())?));
        }
        if let Some(name) = self.undefined_label() {
            return Err(LoadFault::UndefinedLabel(Name::copy_of(alloc, name.as_slice())?));
        }
        if !self.has_main() {
            return Err(LoadFault::NoMain);
        }
        let Some(layout) = lay_out(alloc, self.layout)? else {
            return Err(LoadFault::TooLarge);
        };
        let mut machine = self.blank(alloc, &layout, input)?;
        machine.begin(self.main_place());
        Ok(machine)
    }

    // The machine before that call.
    fn blank(
        &self,
        alloc: Global,
        layout: &Layout,
        input: &'a [u8],
    ) -> Result<Machine<'a>, AllocError>
        requires laid { IsLaidOut self.now.layout.now layout.now }
        requires valid { list_all is_area_item self.now.layout.now ≡ true }
        ensures { IfOk result (λ m. state m ≡ blank (code_of self.now) input.now) }
    {
        let laid = Laid {
            names: self,
            layout,
        };
        Ok(Machine {
            program: laid.link(alloc)?,
            place: 0,
            registers: [0, 0, 0, 0, 0, 0, 0, 0, 0, 0, 0, 0, 0, 0, STACK_TOP],
            conditions: Conditions::CLEARED,
            area: laid.area_bytes(alloc)?,
            stack: zeros(alloc, STACK_SIZE as usize)?,
            frames: Frames::new(alloc)?,
            input,
            over: None,
        })
    }
}

impl<'a> Machine<'a> {
    ghost use Rattle.vax_machine.specs.Loading.{begun, Stands};
    ghost use Rattle.vax_machine.specs.Calls.{called};
    ghost use Rattle.vax_machine.specs.View.{state};

    // Calls the code at a place, to which no caller goes back.
    #[tactic(auto, using(crate::proofs::Starting::began, crate::proofs::Starting::broke))]
    fn begin(&mut self, main: usize)
        ensures { Stands (state self.new) (begun (state self.old) (called (state self.old) 0 main None)) }
    {
        if let Err(stop) = self.call(0, main, None) {
            self.over = Some(stop);
        }
    }
}
