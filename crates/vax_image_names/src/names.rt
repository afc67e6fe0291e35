// The names that a code uses, and whether each is defined for its use.
ghost use Rattle.std.specs.Prelude.{◌≡◌, true, is_none};
ghost use Rattle.std.specs.List.{list_all};
ghost use Rattle.std.specs.Option.{option_copied};
ghost use Rattle.vax_machine.specs.Labels.{is_service, name_in};
ghost use Rattle.vax_machine.specs.Tables.{place_in, area_place_in};
ghost use Rattle.vax_image_names.specs.Found.{found};

use crate::size::fits;
use crate::table::Table;
use gg_base::Name;
use vax_core::{AreaItem, Base, CodeItem, Instr, Operand};
use vax_image_format::is_call;

/// Whether a name is a service's.
pub fn is_service(name: &[u8]) -> bool
    ensures { result ≡ is_service name.now }
{
    name == b"_putchar".as_slice() || name == b"_getchar".as_slice()
}

fn name_in(base: &Base) -> Option<&Name>
    ensures { option_copied result ≡ name_in base.now }
{
    match base {
        Base::Imm(a) | Base::Disp(a, _) | Base::DispDef(a, _) | Base::Rel(a) | Base::RelDef(a) => {
            a.name.as_ref()
        }
        Base::Reg(_)
        | Base::Def(_)
        | Base::Inc(_)
        | Base::IncDef(_)
        | Base::Dec(_)
        | Base::Abs(_) => None,
    }
}

/// A code with the labels of its data area and of its items.
#[derive(Drop)]
pub struct Names<'a> {
    pub layout: &'a [AreaItem],
    pub items: &'a [CodeItem],
    pub area: Table<'a>,
    pub code: Table<'a>,
    ghost area_places: { found area ≡ area_place_in layout.now 0 },
    ghost code_places: { found code ≡ place_in items.now 0 },
}

impl Names<'_> {
    ghost use Rattle.vax_core.specs.First.{main_name};
    ghost use Rattle.vax_machine.specs.Area.{has_area_label};
    ghost use Rattle.vax_machine.specs.Labels.{has_label, undefined_name, undefined_target};
    ghost use Rattle.vax_image_names.specs.Stands.{operand_stands, instr_stands, item_stands, area_stands, names_stand, may_run};
    ghost use Rattle.vax_core.specs.Valid.{is_area_item};

    fn has_label(&self, name: &[u8]) -> bool
        ensures { result ≡ has_label self.now.items.now name.now }
    {
        self.code.get(name).is_some()
    }

    // Whether a label of the code is `_main`.
    fn has_main(&self) -> bool
        ensures { result ≡ has_label self.now.items.now main_name }
    {
        self.has_label(b"_main".as_slice())
    }

    fn has_area_label(&self, name: &[u8]) -> bool
        ensures { result ≡ has_area_label self.now.layout.now name.now }
    {
        self.area.get(name).is_some()
    }

    // Whether a name, if there is one, is a label of the data area.
    fn name_stands(&self, name: Option<&Name>) -> bool
        ensures { result ≡ is_none (undefined_name self.now.layout.now (option_copied name.entry)) }
    {
        match name {
            None => true,
            Some(name) => self.has_area_label(name.as_slice()),
        }
    }

    fn operand_stands(&self, operand: &Operand) -> bool
        ensures { result ≡ operand_stands self.now.layout.now operand.now }
    {
        self.name_stands(name_in(&operand.base))
    }

    // Whether a target, if there is one, is a label of the code, or, of a call, a service.
    fn target_stands(&self, call: bool, target: &Option<Name>) -> bool
        ensures { result ≡ is_none (undefined_target self.now.items.now call target.now) }
    {
        match target {
            None => true,
            Some(name) => {
                (call && is_service(name.as_slice())) || self.has_label(name.as_slice())
            }
        }
    }

    fn operands_stand(&self, operands: &[Operand]) -> bool
        ensures { result ≡ list_all (operand_stands self.now.layout.now) operands.now }
    {
        operands.iter().all(|o| self.operand_stands(o))
    }

    fn instr_stands(&self, instr: &Instr) -> bool
        ensures { result ≡ instr_stands self.now.layout.now self.now.items.now instr.now }
    {
        self.operands_stand(instr.operands.as_slice())
            && self.target_stands(is_call(instr.op), &instr.target)
    }

    fn item_stands(&self, item: &CodeItem) -> bool
        ensures { result ≡ item_stands self.now.layout.now self.now.items.now item.now }
    {
        match item {
            CodeItem::Label(_) | CodeItem::Globl(_) | CodeItem::Mask(_) => true,
            CodeItem::Instr(instr) => self.instr_stands(instr),
        }
    }

    fn area_stands(&self, item: &AreaItem) -> bool
        ensures { result ≡ area_stands self.now.layout.now item.now }
    {
        match item {
            AreaItem::Long(a) => self.name_stands(a.name.as_ref()),
            AreaItem::Label(_)
            | AreaItem::Globl(_)
            | AreaItem::Align(_)
            | AreaItem::Byte(_)
            | AreaItem::Word(_)
            | AreaItem::Space(_) => true,
        }
    }

    fn areas_stand(&self) -> bool
        ensures { result ≡ list_all (area_stands self.now.layout.now) self.now.layout.now }
    {
        self.layout.iter().all(|item| self.area_stands(item))
    }

    fn items_stand(&self) -> bool
        ensures { result ≡ list_all (item_stands self.now.layout.now self.now.items.now) self.now.items.now }
    {
        self.items.iter().all(|item| self.item_stands(item))
    }

    // Whether each name is defined for its use.
    fn stand(&self) -> bool
        ensures { result ≡ names_stand self.now.layout.now self.now.items.now }
    {
        self.areas_stand() && self.items_stand()
    }

    /// Whether the code can be run, where no label of it stands twice.
    pub fn may_run(&self) -> bool
        requires { list_all is_area_item self.now.layout.now ≡ true }
        ensures { result ≡ may_run self.now.layout.now self.now.items.now }
    {
        self.stand() && self.has_main() && fits(self.layout)
    }
}
