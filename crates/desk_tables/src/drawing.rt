// Item sets of tables, drawn.
//
// A kernel is the items of a set that have a symbol before the dot, or the start alone. What a kernel opens is not drawn: the rules of
// the classes behind its dots, with the dot first.
use gg_base::NoMemory;
use lr_tables::{Item, State, Tables};
use md_reader::Sym;
use std::alloc::{AllocError, Global};
use std::{mem, str};
use tree_core::Tok;

/// The item before the first symbol of a parse.
pub const START: Item = Item { rule: None, dot: 0 };

/// Tables to be drawn, and the symbols of the start: the class of statements and `End`.
#[derive(Drop)]
pub struct Drawing<'a> {
    alloc: Global,
    pub tables: &'a Tables,
    start: [Sym; 2],
}

// The class of statements.
fn statements(tables: &Tables) -> Sym {
    let classes = tables.description().classes();
    let number = classes
        .iter()
        .position(|class| class.name.as_slice() == b"stmt".as_slice())
        .unwrap_or(classes.len());
    Sym::Class(u16::try_from(number).unwrap_or(u16::MAX))
}

impl<'a> Drawing<'a> {
    /// A drawing of these tables.
    pub fn new(alloc: Global, tables: &'a Tables) -> Self {
        Drawing {
            alloc,
            tables,
            start: [statements(tables), Sym::Tok(Tok::End)],
        }
    }

    /// The symbol's name.
    pub fn name_of(&self, symbol: Sym) -> &str {
        let number = match symbol {
            Sym::Tok(token) => return token.name(),
            Sym::Class(number) => number as usize,
        };
        match self.tables.description().classes().get(number) {
            Some(class) => str::from_utf8(class.name.as_slice()).unwrap_or("?"),
            None => "?",
        }
    }

    // The right side of an item's rule.
    fn right_of(&self, item: Item) -> &[Sym] {
        let Some(number) = item.rule else {
            return &self.start;
        };
        match self.tables.description().rules().get(number as usize) {
            Some(rule) => rule.right.as_slice(),
            None => &[],
        }
    }

    fn next_of(&self, item: Item) -> Option<Sym> {
        self.right_of(item).get(item.dot as usize).copied()
    }

    // The rules of the class with the dot first, where they are not among the items.
    fn open(&self, items: &mut Vec<Item>, class: u16) -> Result<(), AllocError> {
        let mut number: u16 = 0;
        for rule in self.tables.description().rules() {
            let item = Item {
                rule: Some(number),
                dot: 0,
            };
            if rule.left == class && !items.contains(&item) {
                items.push(item)?;
            }
            number = number.saturating_add(1);
        }
        Ok(())
    }

    // An item set from its kernel.
    fn item_set(&self, kernel: &[Item]) -> Result<Vec<Item>, AllocError> {
        let mut items = Vec::from_slice(self.alloc, kernel)?;
        for at in 0..usize::MAX {
            let Some(item) = items.get(at).copied() else {
                break;
            };
            if let Some(Sym::Class(class)) = self.next_of(item) {
                self.open(&mut items, class)?;
            }
        }
        Ok(items)
    }

    /// The kernel behind a symbol.
    pub fn moved(&self, kernel: &[Item], symbol: Sym) -> Result<Vec<Item>, AllocError> {
        let mut behind = Vec::new(self.alloc);
        for item in &self.item_set(kernel)? {
            if self.next_of(*item) == Some(symbol) {
                behind.push(Item {
                    rule: item.rule,
                    dot: item.dot.saturating_add(1),
                })?;
            }
        }
        Ok(behind)
    }

    // An item as a line: its class and its right side with the dot.
    fn put_item(&self, told: &mut String, item: Item) -> Result<(), AllocError> {
        if let Some(number) = item.rule {
            if let Some(rule) = self.tables.description().rules().get(number as usize) {
                told.push_str(self.name_of(Sym::Class(rule.left)))?;
                told.push_str(" : ")?;
            }
        }
        let right = self.right_of(item);
        for (place, symbol) in right.iter().enumerate() {
            if place > 0 {
                told.push(' ')?;
            }
            if place == item.dot as usize {
                told.push_str(". ")?;
            }
            told.push_str(self.name_of(*symbol))?;
        }
        told.push_str(if right.len() == item.dot as usize {
            " .\n"
        } else {
            "\n"
        })
    }

    /// Adds the box of a state with this kernel.
    pub fn put_kernel(
        &self,
        told: &mut String,
        state: State,
        kernel: &[Item],
    ) -> Result<(), AllocError> {
        for (place, item) in kernel.iter().enumerate() {
            if place == 0 {
                write!(told, "  | {:<4}", state.number())?;
            } else {
                told.push_str("  |     ")?;
            }
            self.put_item(told, *item)?;
        }
        Ok(())
    }

    // Where a state leads, each symbol once, as a line; nothing of a state that leads nowhere.
    fn put_leads(
        &self,
        told: &mut String,
        state: State,
        symbols: &[Sym],
    ) -> Result<(), AllocError> {
        let mut front = "  |       over ";
        for symbol in symbols {
            if let Some(target) = self.tables.over(state, *symbol) {
                let name = self.name_of(*symbol);
                write!(told, "{front}{name} to {}", target.number())?;
                front = ", ";
            }
        }
        told.push_str(if symbols.is_empty() { "" } else { "\n" })
    }

    // The symbols behind the dots of the kernel's item set, each once.
    fn behind_dots(&self, kernel: &[Item]) -> Result<Vec<Sym>, AllocError> {
        let mut symbols = Vec::new(self.alloc);
        for item in &self.item_set(kernel)? {
            if let Some(symbol) = self.next_of(*item) {
                if !symbols.contains(&symbol) {
                    symbols.push(symbol)?;
                }
            }
        }
        Ok(symbols)
    }

    // The kernels that the symbols lead to are noted by their numbers.
    fn note_kernels(
        &self,
        state: State,
        kernel: &[Item],
        symbols: &[Sym],
        kernels: &mut Vec<Vec<Item>>,
    ) -> Result<(), AllocError> {
        for symbol in symbols {
            let behind = self.moved(kernel, *symbol)?;
            if let Some(target) = self.tables.over(state, *symbol) {
                if let Some(noted) = kernels.get_mut(target.number() as usize) {
                    *noted = behind;
                }
            }
        }
        Ok(())
    }

    // Adds an item set, and notes the kernels that it leads to.
    fn put_set(
        &self,
        told: &mut String,
        number: u16,
        kernels: &mut Vec<Vec<Item>>,
    ) -> Result<(), AllocError> {
        let kernel = match kernels.get_mut(number as usize) {
            Some(noted) => mem::replace(noted, Vec::new(self.alloc)),
            None => Vec::new(self.alloc),
        };
        let state = State::of(number);
        let symbols = self.behind_dots(&kernel)?;
        self.note_kernels(state, &kernel, &symbols, kernels)?;
        self.put_kernel(told, state, &kernel)?;
        self.put_leads(told, state, &symbols)
    }

    /// Adds each item set by its number: its kernel, and where it leads.
    pub fn put_sets(&self, told: &mut String) -> Result<(), NoMemory> {
        let count = u16::try_from(self.tables.states()).unwrap_or(u16::MAX);
        let mut kernels = Vec::new(self.alloc);
        for _ in 0..count {
            kernels.push(Vec::from_slice(self.alloc, &[START])?)?;
        }
        for number in 0..count {
            self.put_set(told, number, &mut kernels)?;
        }
        Ok(())
    }
}
