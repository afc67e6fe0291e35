// Jumps in whose place stands what they lead to.

use crate::stops::Stops;
use gg_base::{Name, NoMemory};
use std::alloc::Global;
use vax_core::{Code, CodeItem, Instr, Op, Operands};
use vax_pairs_masks::labels::Labels;
use vax_validated::copying::{copy_item, with_area_of};

/// A jump, and the first and the last place of the instructions that are copied into its place; behind them comes a jump to a new label
/// behind the last place, where they don't end in a jump or a return.
#[derive(Drop)]
pub struct InlinedJump {
    pub jump: usize,
    pub first: usize,
    pub last: usize,
    pub out: Option<Name>,
}

/// The place of the label to which an instruction leads.
pub fn goal(labels: &Labels, instr: &Instr) -> Option<usize> {
    match &instr.target {
        None => None,
        Some(name) => labels.place(name.as_slice()),
    }
}

/// The place to which an item jumps.
pub fn jump_goal(labels: &Labels, item: &CodeItem) -> Option<usize> {
    match item {
        CodeItem::Instr(instr) if matches!(instr.op, Op::Jbr) => goal(labels, instr),
        _ => None,
    }
}

/// Whether items from a place to another one are shown to do the same where a jump to them stands: no piece ends at a label of theirs.
pub fn may_inline(items: &[CodeItem], stops: &Stops, first: usize, last: usize) -> bool {
    items
        .iter()
        .enumerate()
        .take(last.saturating_add(1))
        .skip(first)
        .all(|(place, item)| !matches!(item, CodeItem::Label(_)) || !stops.has(place))
}

/// A code that is written with jumps inlined.
#[derive(Drop)]
struct Writing<'a> {
    alloc: Global,
    items: &'a [CodeItem],
    jumps: &'a [InlinedJump],
    written: Vec<CodeItem>,
}

impl<'a> Writing<'a> {
    fn copy(&mut self, item: &CodeItem) -> Result<(), NoMemory> {
        self.written.push(copy_item(self.alloc, item)?)?;
        Ok(())
    }

    fn jump_to(&mut self, name: &Name) -> Result<(), NoMemory> {
        let name = Name::copy_of(self.alloc, name.as_slice())?;
        self.written.push(CodeItem::Instr(Instr {
            op: Op::Jbr,
            operands: Operands::new(self.alloc),
            target: Some(name),
        }))?;
        Ok(())
    }

    fn label(&mut self, name: &Name) -> Result<(), NoMemory> {
        let name = Name::copy_of(self.alloc, name.as_slice())?;
        self.written.push(CodeItem::Label(name))?;
        Ok(())
    }

    // What stands in place of a jump.
    fn inline(&mut self, jump: &InlinedJump) -> Result<(), NoMemory> {
        let items = self.items;
        for item in items
            .iter()
            .take(jump.last.saturating_add(1))
            .skip(jump.first)
        {
            if let CodeItem::Instr(_) = item {
                self.copy(item)?;
            }
        }
        if let Some(out) = &jump.out {
            self.jump_to(out)?;
        }
        Ok(())
    }

    // The item at a place, or what stands there instead, and new labels behind it.
    fn item(&mut self, place: usize, item: &CodeItem) -> Result<(), NoMemory> {
        let jumps = self.jumps;
        match jumps.iter().find(|jump| jump.jump == place) {
            None => self.copy(item)?,
            Some(jump) => self.inline(jump)?,
        }
        for jump in jumps {
            if let (true, Some(out)) = (jump.last == place, &jump.out) {
                self.label(out)?;
            }
        }
        Ok(())
    }
}

/// The code with these jumps inlined.
pub fn inline_all(alloc: Global, code: &Code, jumps: &[InlinedJump]) -> Result<Code, NoMemory> {
    let items = code.items.as_slice();
    let mut writing = Writing {
        alloc,
        items,
        jumps,
        written: Vec::new(alloc),
    };
    for (place, item) in items.iter().enumerate() {
        writing.item(place, item)?;
    }
    let Writing { written, .. } = writing;
    with_area_of(alloc, code, written)
}
