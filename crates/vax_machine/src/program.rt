// A code whose names are looked up.
ghost use Rattle.std.specs.Prelude.{◌≡◌, ◌≤◌, ◌<◌, length, map, slice_get, vec_len, IfOk};
ghost use Rattle.std.specs.Option.{option_copied};
ghost use Rattle.vax_machine.specs.Labels.{next_item};
ghost use Rattle.vax_machine.specs.Tables.{base_number, operand_number, target_of, links_of};
ghost use Rattle.vax_machine.specs.Rows.{row_view, row_of};
ghost use Rattle.vax_machine.specs.Nexts.{HasNexts};

use crate::area::Laid;
use crate::function::{Action, action_of};
use crate::label::Names;
use gg_base::Name;
use std::alloc::{AllocError, Global};
use vax_core::{AreaItem, Base, CodeItem, Instr, Operand, OperandKind};

/// What the names of an item stand for.
#[derive(Clone, Copy)]
pub struct Links {
    /// The place of the label that a branch or a call names.
    pub target: usize,
    /// For each operand the number that its address stands for.
    pub numbers: [u32; 3],
}

/// What an item does, by the two tables of instructions: its operands, and what it does with them.
#[derive(Clone, Copy)]
pub struct Row {
    pub kinds: &'static [OperandKind],
    pub action: Action,
}

/// A code, and beside each item what its names stand for and what it does.
#[derive(Drop)]
pub struct Program<'a> {
    pub layout: &'a [AreaItem],
    pub items: &'a [CodeItem],
    /// For each place the place of the next item from there on.
    nexts: Vec<usize>,
    links: Vec<Links>,
    rows: Vec<Row>,
    ghost nexts_are: { HasNexts items.now nexts.items },
    ghost links_are: { links.items ≡ map (links_of layout.now items.now) items.now },
    ghost rows_are: { map row_view rows.items ≡ map row_of items.now },
}

fn nexts(alloc: Global, items: &[CodeItem]) -> Result<Vec<usize>, AllocError>
    ensures { IfOk result (λ v. HasNexts items.now v.items) }
{
    let mut nexts = vec![in alloc; 0usize; items.len()]?;
    let mut next = items.len();
    for (place, item) in items.iter().enumerate().rev() {
        match item {
            CodeItem::Label(_) | CodeItem::Globl(_) => {}
            CodeItem::Mask(_) | CodeItem::Instr(_) => next = place,
        }
        nexts[place] = next;
    }
    Ok(nexts)
}

fn row_of(item: &CodeItem) -> Row
    ensures { row_view result ≡ row_of item.now }
{
    match item {
        CodeItem::Label(_) | CodeItem::Globl(_) | CodeItem::Mask(_) => Row {
            kinds: &[],
            action: Action::Return,
        },
        CodeItem::Instr(instr) => Row {
            kinds: instr.op.shape().operands,
            action: action_of(instr.op),
        },
    }
}

fn rows(alloc: Global, items: &[CodeItem]) -> Result<Vec<Row>, AllocError>
    ensures { IfOk result (λ v. map row_view v.items ≡ map row_of items.now) }
{
    let mut rows = Vec::with_capacity(alloc, items.len())?;
    for item in items {
        rows.push(row_of(item))?;
    }
    Ok(rows)
}

impl<'a> Names<'a> {
    fn target(&self, target: &Option<Name>) -> usize
        ensures { result ≡ target_of self.now.items.now target.now }
    {
        match target {
            None => 0,
            Some(name) => self.label_place(name.as_slice()),
        }
    }
}

impl<'b, 'a> Laid<'b, 'a> {
    fn base_number(&self, base: &Base) -> u32
        ensures { result ≡ base_number self.now.names.now.layout.now base.now }
    {
        match base {
            Base::Imm(a)
            | Base::Disp(a, _)
            | Base::DispDef(a, _)
            | Base::Rel(a)
            | Base::RelDef(a) => self.resolve(a),
            Base::Reg(_)
            | Base::Def(_)
            | Base::Inc(_)
            | Base::IncDef(_)
            | Base::Dec(_)
            | Base::Abs(_) => 0,
        }
    }

    fn operand_number(&self, operand: Option<&Operand>) -> u32
        ensures { result ≡ operand_number self.now.names.now.layout.now (option_copied operand.entry) }
    {
        match operand {
            None => 0,
            Some(operand) => self.base_number(&operand.base),
        }
    }

    fn links(&self, item: &CodeItem) -> Links
        ensures { result ≡ links_of self.now.names.now.layout.now self.now.names.now.items.now item.now }
    {
        match item {
            CodeItem::Label(_) | CodeItem::Globl(_) | CodeItem::Mask(_) => Links {
                target: 0,
                numbers: [0, 0, 0],
            },
            CodeItem::Instr(
                Instr {
                    op: _,
                    operands,
                    target,
                },
            ) => {
                let operands = operands.as_slice();
                Links {
                    target: self.names.target(target),
                    numbers: [
                        self.operand_number(operands.get(0)),
                        self.operand_number(operands.get(1)),
                        self.operand_number(operands.get(2)),
                    ],
                }
            }
        }
    }

    fn all_links(&self, alloc: Global) -> Result<Vec<Links>, AllocError>
        ensures { IfOk result (λ v. v.items ≡
            map (links_of self.now.names.now.layout.now self.now.names.now.items.now) self.now.names.now.items.now) }
    {
        self.names
            .items
            .iter()
            .map(|item| self.links(item))
            .collect(alloc)
    }

    /// The code with what its names stand for.
    pub(crate) fn link(&self, alloc: Global) -> Result<Program<'a>, AllocError>
        ensures layout { IfOk result (λ p. p.layout.now ≡ self.now.names.now.layout.now) }
        ensures items { IfOk result (λ p. p.items.now ≡ self.now.names.now.items.now) }
    {
        Ok(Program {
            layout: self.names.layout,
            items: self.names.items,
            nexts: nexts(alloc, self.names.items)?,
            links: self.all_links(alloc)?,
            rows: rows(alloc, self.names.items)?,
        })
    }
}

impl<'a> Program<'a> {
    ghost use Rattle.vax_machine.specs.Tables.{links_at};
    ghost use Rattle.vax_machine.specs.Rows.{row_at};

    /// The place of the next item from a place on: the first that is neither a label nor a `.globl` line.
    pub(crate) fn next_item(&self, place: usize) -> usize
        ensures { result ≡ next_item self.now.items.now place }
    {
        if place < self.nexts.len() {
            self.nexts[place]
        } else {
            place
        }
    }

    /// What the names of the item at a place stand for.
    pub(crate) fn links(&self, place: usize) -> Links
        requires { place < length self.now.items.now }
        ensures { result ≡ links_at self.now.layout.now self.now.items.now (slice_get self.now.items.now place) }
    {
        self.links[place]
    }

    /// What the item at a place does.
    pub(crate) fn row(&self, place: usize) -> Row
        requires { place < length self.now.items.now }
        ensures { row_view result ≡ row_at (slice_get self.now.items.now place) }
    {
        self.rows[place]
    }
}
