// The labels of a code that can be run.
ghost use Rattle.std.specs.Prelude.{◌≡◌, ◌||◌, true, is_some, IfOk, OnOk};
ghost use Rattle.vax_core.specs.Valid.{is_code};
ghost use Rattle.vax_machine.specs.Labels.{is_service, double_label, double_area_label};
ghost use Rattle.vax_machine.specs.Tables.{place_in, area_place_in, with_name};
ghost use Rattle.vax_image_names.specs.Found.{found};
ghost use Rattle.vax_image_names.specs.Links.{IsNamed, IsLinked};

use crate::labels::Labels;
use crate::names::{Names, is_service};
use crate::table::Table;
use std::alloc::{AllocError, Global};
use vax_core::{AreaItem, Code, CodeItem};

// Labels that are gone through from the last on.
#[derive(Drop)]
pub struct Behind<'a> {
    /// The number of each; where one stands twice, that of the first.
    pub numbers: Table<'a>,
    /// Whether one stands again behind itself, or has a service's name.
    pub double: bool,
}

impl<'a> Behind<'a> {
    // A label in front of the others.
    fn put(&mut self, name: &'a [u8], number: usize, again: bool) -> Result<(), AllocError>
        ensures numbers { OnOk result (found self.new.numbers ≡ with_name (found self.old.numbers) name.now number) }
        ensures double { OnOk result (self.new.double ≡ (again || self.old.double)) }
    {
        self.double = again || self.double;
        self.numbers.put(name, number)
    }
}

// Whether a label may not stand in front of those that are in a table.
fn is_taken(name: &[u8], behind: &Table) -> bool
    ensures { result ≡ (is_service name.now || is_some (found behind.now name.now)) }
{
    is_service(name) || behind.get(name).is_some()
}

// The same where two tables stand behind it.
fn is_taken_in_either(name: &[u8], behind: &Table, code: &Table) -> bool
    ensures { result ≡ (is_service name.now || (is_some (found behind.now name.now) || is_some (found code.now name.now))) }
{
    is_service(name) || behind.get(name).is_some() || code.get(name).is_some()
}

// The labels of the code.
fn code_labels<'a>(alloc: Global, items: &'a [CodeItem]) -> Result<Behind<'a>, AllocError>
    ensures numbers { IfOk result (λ l. found l.numbers ≡ place_in items.now 0) }
    ensures double { IfOk result (λ l. l.double ≡ is_some (double_label items.now)) }
{
    let mut labels = Behind {
        numbers: Table::new(alloc),
        double: false,
    };
    for place in (0..items.len()).rev() {
        if let CodeItem::Label(name) = &items[place] {
            let again = is_taken(name.as_slice(), &labels.numbers);
            labels.put(name.as_slice(), place, again)?;
        }
    }
    Ok(labels)
}

// The labels of the data area. One that is a label of the code too stands again behind itself.
fn area_labels<'a>(
    alloc: Global,
    layout: &'a [AreaItem],
    items: &'a [CodeItem],
    code: &Table<'a>,
) -> Result<Behind<'a>, AllocError>
    requires { found code.now ≡ place_in items.now 0 }
    ensures numbers { IfOk result (λ l. found l.numbers ≡ area_place_in layout.now 0) }
    ensures double { IfOk result (λ l. l.double ≡ is_some (double_area_label layout.now items.now)) }
{
    let mut labels = Behind {
        numbers: Table::new(alloc),
        double: false,
    };
    for place in (0..layout.len()).rev() {
        if let AreaItem::Label(name) = &layout[place] {
            let again = is_taken_in_either(name.as_slice(), &labels.numbers, code);
            labels.put(name.as_slice(), place, again)?;
        }
    }
    Ok(labels)
}

// The names of a code, unless a label stands twice or has a service's name.
#[tactic(auto, using(crate::proofs::Standing::double_facts))]
fn names<'a>(alloc: Global, code: &'a Code) -> Result<Option<Names<'a>>, AllocError>
    ensures { IfOk result (IsNamed code.now) }
{
    let layout = code.area.as_slice();
    let items = code.items.as_slice();
    let in_code = code_labels(alloc, items)?;
    let in_area = area_labels(alloc, layout, items, &in_code.numbers)?;
    if in_area.double {
        return Ok(None);
    }
    if in_code.double {
        return Ok(None);
    }
    Ok(Some(Names {
        layout,
        items,
        area: in_area.numbers,
        code: in_code.numbers,
    }))
}

/// The labels of a code that can be run; none where it can't, for a label that stands twice or has a service's name, a name that isn't
/// defined for its use, a missing `_main`, or a data area that is too large.
#[tactic(auto, using(crate::proofs::Standing::link_facts))]
pub fn link<'a>(alloc: Global, code: &'a Code) -> Result<Option<Labels<'a>>, AllocError>
    requires { is_code code.now ≡ true }
    ensures { IfOk result (IsLinked code.now) }
{
    let Some(names) = names(alloc, code)? else {
        return Ok(None);
    };
    if !names.may_run() {
        return Ok(None);
    }
    Ok(Some(Labels {
        items: names.items,
        numbers: names.code,
    }))
}
