// The labels of a text and the names that its items use.
ghost use Rattle.std.specs.Prelude.{◌≡◌, ◌||◌, is_some, Some, IfOk, OnOk, if◌then◌else◌};
ghost use Rattle.std.specs.Option.{option_copied};
ghost use Rattle.vax_machine.specs.Labels.{is_service};
ghost use Rattle.l32_machine.specs.Labels.{double_label, double_area_label, name_in, is_call};
ghost use Rattle.vax_machine.specs.Tables.{area_place_in, with_name};
ghost use Rattle.l32_machine.specs.Tables.{place_in};
ghost use Rattle.l32_machine.specs.Found.{found};

use crate::function::{Action, action_of};
use crate::table::Table;
use gg_base::Name;
use l32_core::{Instr32, Item32, Operand32};
use std::alloc::{AllocError, Global};
use vax_core::AreaItem;

fn is_service(name: &[u8]) -> bool
    ensures { result ≡ is_service name.now }
{
    name == b"_putchar".as_slice() || name == b"_getchar".as_slice()
}

// Whether a label may not stand in front of those that are in a table.
fn is_taken(name: &[u8], places: &Table) -> bool
    ensures { result ≡ (is_service name.now || is_some (found places.now name.now)) }
{
    is_service(name) || places.get(name).is_some()
}

// The same where two tables stand behind it.
fn is_taken_in_either(name: &[u8], places: &Table, code: &Table) -> bool
    ensures { result ≡ (is_service name.now || (is_some (found places.now name.now) || is_some (found code.now name.now))) }
{
    is_service(name) || places.get(name).is_some() || code.get(name).is_some()
}

/// The labels of the code, or of the data area.
#[derive(Drop)]
pub struct Labels<'a> {
    /// The place of each; where it stands twice, that of the first.
    pub places: Table<'a>,
    /// The first label that stands again behind it, or has a service's name.
    pub double: Option<&'a Name>,
}

impl<'a> Labels<'a> {
    // A label in front of the others.
    fn put(&mut self, name: &'a Name, place: usize, again: bool) -> Result<(), AllocError>
        ensures places { OnOk result (found self.new.places ≡ with_name (found self.old.places) name.now place) }
        ensures double { OnOk result (option_copied self.new.double ≡ (if again then Some name.now else option_copied self.old.double)) }
    {
        if again {
            self.double = Some(name);
        }
        self.places.put(name.as_slice(), place)
    }
}

/// The labels of the code.
pub(crate) fn code_labels<'a>(alloc: Global, items: &'a [Item32]) -> Result<Labels<'a>, AllocError>
    ensures places { IfOk result (λ l. found l.places ≡ place_in items.now 0) }
    ensures double { IfOk result (λ l. option_copied l.double ≡ double_label items.now) }
{
    let mut labels = Labels {
        places: Table::new(alloc),
        double: None,
    };
    for place in (0..items.len()).rev() {
        if let Item32::Label(name) = &items[place] {
            let again = is_taken(name.as_slice(), &labels.places);
            labels.put(name, place, again)?;
        }
    }
    Ok(labels)
}

/// The labels of the data area. One that is a label of the code too stands again behind itself.
pub(crate) fn area_labels<'a>(
    alloc: Global,
    layout: &'a [AreaItem],
    items: &'a [Item32],
    code: &Table<'a>,
) -> Result<Labels<'a>, AllocError>
    requires { found code.now ≡ place_in items.now 0 }
    ensures places { IfOk result (λ l. found l.places ≡ area_place_in layout.now 0) }
    ensures double { IfOk result (λ l. option_copied l.double ≡ double_area_label layout.now items.now) }
{
    let mut labels = Labels {
        places: Table::new(alloc),
        double: None,
    };
    for place in (0..layout.len()).rev() {
        if let AreaItem::Label(name) = &layout[place] {
            let again = is_taken_in_either(name.as_slice(), &labels.places, code);
            labels.put(name, place, again)?;
        }
    }
    Ok(labels)
}

fn name_in(operand: &Operand32) -> Option<&Name>
    ensures { option_copied result ≡ name_in operand.now }
{
    match operand {
        Operand32::Num(_) => None,
        Operand32::Reg(_) => None,
        Operand32::At(_, _) => None,
        Operand32::Deferred(_, _) => None,
        Operand32::Addr(a) => a.name.as_ref(),
    }
}

fn is_call(action: Action) -> bool
    ensures { result ≡ is_call action }
{
    match action {
        Action::Compute(_) => false,
        Action::Branch(_) => false,
        Action::Jump => false,
        Action::Push => false,
        Action::Enter => false,
        Action::Call => true,
        Action::Return => false,
    }
}

/// A text with its labels.
#[derive(Drop)]
pub struct Names<'a> {
    pub layout: &'a [AreaItem],
    pub items: &'a [Item32],
    pub area: Table<'a>,
    pub code: Table<'a>,
    ghost area_places: { found area ≡ area_place_in layout.now 0 },
    ghost code_places: { found code ≡ place_in items.now 0 },
}

impl<'a> Names<'a> {
    ghost use Rattle.vax_machine.specs.Area.{has_area_label};
    ghost use Rattle.vax_core.specs.First.{main_name};
    ghost use Rattle.vax_machine.specs.Labels.{undefined_name, undefined_area_at, undefined_area_label};
    ghost use Rattle.l32_machine.specs.Labels.{has_label, label_place, undefined_operand, undefined_target, undefined_in, undefined_at};
    ghost use Rattle.l32_machine.specs.Labels.{undefined_label};

    /// Whether a label of the code has this name.
    fn has_label(&self, name: &[u8]) -> bool
        ensures { result ≡ has_label self.now.items.now name.now }
    {
        self.code.get(name).is_some()
    }

    /// The place of the label of that name, or behind all items.
    pub(crate) fn label_place(&self, name: &[u8]) -> usize
        ensures { result ≡ label_place self.now.items.now name.now }
    {
        self.code.get(name).unwrap_or(self.items.len())
    }

    /// Whether a label of the code is `_main`.
    pub(crate) fn has_main(&self) -> bool
        ensures { result ≡ has_label self.now.items.now main_name }
    {
        self.has_label(b"_main".as_slice())
    }

    /// The place of the label `_main`.
    pub(crate) fn main_place(&self) -> usize
        ensures { result ≡ label_place self.now.items.now main_name }
    {
        self.label_place(b"_main".as_slice())
    }

    fn has_area_label(&self, name: &[u8]) -> bool
        ensures { result ≡ has_area_label self.now.layout.now name.now }
    {
        self.area.get(name).is_some()
    }

    fn undefined_name<'b>(&self, name: Option<&'b Name>) -> Option<&'b Name>
        ensures { option_copied result ≡ undefined_name self.now.layout.now (option_copied name.entry) }
    {
        let name = name?;
        if self.has_area_label(name.as_slice()) {
            None
        } else {
            Some(name)
        }
    }

    fn undefined_operand<'b>(&self, operands: &'b [Operand32]) -> Option<&'b Name>
        ensures { option_copied result ≡ undefined_operand self.now.layout.now operands.now }
    {
        operands
            .iter()
            .find_map(|operand| self.undefined_name(name_in(operand)))
    }

    fn undefined_target<'b>(&self, call: bool, target: &'b Option<Name>) -> Option<&'b Name>
        ensures { option_copied result ≡ undefined_target self.now.items.now call target.now }
    {
        let Some(name) = target else {
            return None;
        };
        if (call && is_service(name.as_slice())) || self.has_label(name.as_slice()) {
            None
        } else {
            Some(name)
        }
    }

    fn undefined_in<'b>(&self, instr: &'b Instr32) -> Option<&'b Name>
        ensures { option_copied result ≡ undefined_in self.now.layout.now self.now.items.now instr.now }
    {
        if let Some(name) = self.undefined_operand(instr.operands.as_slice()) {
            return Some(name);
        }
        self.undefined_target(is_call(action_of(instr.op)), &instr.target)
    }

    fn undefined_at<'b>(&self, item: &'b Item32) -> Option<&'b Name>
        ensures { option_copied result ≡ undefined_at self.now.layout.now self.now.items.now item.now }
    {
        match item {
            Item32::Label(_) => None,
            Item32::Instr(instr) => self.undefined_in(instr),
        }
    }

    /// The first name of an instruction that isn't defined for its use.
    pub(crate) fn undefined_label(&self) -> Option<&'a Name>
        ensures { option_copied result ≡ undefined_label self.now.items.now self.now.layout.now self.now.items.now }
    {
        self.items.iter().find_map(|item| self.undefined_at(item))
    }

    fn undefined_area_at<'b>(&self, item: &'b AreaItem) -> Option<&'b Name>
        ensures { option_copied result ≡ undefined_area_at self.now.layout.now item.now }
    {
        match item {
            AreaItem::Long(a) => self.undefined_name(a.name.as_ref()),
            AreaItem::Label(_)
            | AreaItem::Globl(_)
            | AreaItem::Align(_)
            | AreaItem::Byte(_)
            | AreaItem::Word(_)
            | AreaItem::Space(_) => None,
        }
    }

    /// The first name of a `.long` that is no label of the data area.
    pub(crate) fn undefined_area_label(&self) -> Option<&'a Name>
        ensures { option_copied result ≡ undefined_area_label self.now.layout.now self.now.layout.now }
    {
        self.layout
            .iter()
            .find_map(|item| self.undefined_area_at(item))
    }
}
