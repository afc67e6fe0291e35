// A code whose names are looked up.
ghost use Rattle.std.specs.Prelude.{◌≡◌, ◌≤◌, ◌<◌, length, map, slice_get, vec_len, IfOk};
ghost use Rattle.std.specs.Option.{option_copied};
ghost use Rattle.l32_machine.specs.Labels.{next_item};
ghost use Rattle.l32_machine.specs.Tables.{number_of, operand_number, target_of, links_of};
ghost use Rattle.l32_machine.specs.Nexts.{HasNexts};

use crate::area::Laid;
use crate::label::Names;
use gg_base::Name;
use l32_core::{Instr32, Item32, Operand32};
use std::alloc::{AllocError, Global};
use vax_core::AreaItem;

/// What the names of an item stand for.
#[derive(Clone, Copy)]
pub struct Links {
    /// The place of the label that a branch or a call names.
    pub target: usize,
    /// For each operand the address that its label stands for.
    pub numbers: [u32; 3],
}

/// A code, and beside each item what its names stand for.
#[derive(Drop)]
pub struct Program<'a> {
    pub layout: &'a [AreaItem],
    pub items: &'a [Item32],
    /// For each place the place of the next item from there on.
    nexts: Vec<usize>,
    links: Vec<Links>,
    ghost nexts_are: { HasNexts items.now nexts.items },
    ghost links_are: { links.items ≡ map (links_of layout.now items.now) items.now },
}

fn nexts(alloc: Global, items: &[Item32]) -> Result<Vec<usize>, AllocError>
    ensures { IfOk result (λ v. HasNexts items.now v.items) }
{
    let mut nexts = vec![in alloc; 0usize; items.len()]?;
    let mut next = items.len();
    for (place, item) in items.iter().enumerate().rev() {
        match item {
            Item32::Label(_) => {}
            Item32::Instr(_) => next = place,
        }
        nexts[place] = next;
    }
    Ok(nexts)
}

impl<'a> Names<'a> {
    fn target(&self, target: &Option<Name>) -> usize
        ensures { result ≡ target_of self.now.items.now target.now }
    {
        match target {
            None => 0,
            Some(name) => self.label_place(name.as_slice()),
        }
    }
}

impl<'b, 'a> Laid<'b, 'a> {
    fn number_of(&self, operand: &Operand32) -> u32
        ensures { result ≡ number_of self.now.names.now.layout.now operand.now }
    {
        match operand {
            Operand32::Addr(a) => self.resolve(a),
            Operand32::Num(_)
            | Operand32::Reg(_)
            | Operand32::At(_, _)
            | Operand32::Deferred(_, _) => 0,
        }
    }

    fn operand_number(&self, operand: Option<&Operand32>) -> u32
        ensures { result ≡ operand_number self.now.names.now.layout.now (option_copied operand.entry) }
    {
        match operand {
            None => 0,
            Some(operand) => self.number_of(operand),
        }
    }

    fn links(&self, item: &Item32) -> Links
        ensures { result ≡ links_of self.now.names.now.layout.now self.now.names.now.items.now item.now }
    {
        match item {
            Item32::Label(_) => Links {
                target: 0,
                numbers: [0, 0, 0],
            },
            Item32::Instr(
                Instr32 {
                    op: _,
                    operands,
                    target,
                },
            ) => {
                let operands = operands.as_slice();
                Links {
                    target: self.names.target(target),
                    numbers: [
                        self.operand_number(operands.get(0)),
                        self.operand_number(operands.get(1)),
                        self.operand_number(operands.get(2)),
                    ],
                }
            }
        }
    }

    fn all_links(&self, alloc: Global) -> Result<Vec<Links>, AllocError>
        ensures { IfOk result (λ v. v.items ≡
            map (links_of self.now.names.now.layout.now self.now.names.now.items.now) self.now.names.now.items.now) }
    {
        self.names
            .items
            .iter()
            .map(|item| self.links(item))
            .collect(alloc)
    }

    /// The code with what its names stand for.
    pub(crate) fn link(&self, alloc: Global) -> Result<Program<'a>, AllocError>
        ensures layout { IfOk result (λ p. p.layout.now ≡ self.now.names.now.layout.now) }
        ensures items { IfOk result (λ p. p.items.now ≡ self.now.names.now.items.now) }
    {
        Ok(Program {
            layout: self.names.layout,
            items: self.names.items,
            nexts: nexts(alloc, self.names.items)?,
            links: self.all_links(alloc)?,
        })
    }
}

impl<'a> Program<'a> {
    ghost use Rattle.l32_machine.specs.Tables.{links_at};

    /// The place of the next item from a place on: the first that is no label.
    pub(crate) fn next_item(&self, place: usize) -> usize
        ensures { result ≡ next_item self.now.items.now place }
    {
        if place < self.nexts.len() {
            self.nexts[place]
        } else {
            place
        }
    }

    /// What the names of the item at a place stand for.
    pub(crate) fn links(&self, place: usize) -> Links
        requires { place < length self.now.items.now }
        ensures { result ≡ links_at self.now.layout.now self.now.items.now (slice_get self.now.items.now place) }
    {
        self.links[place]
    }
}
