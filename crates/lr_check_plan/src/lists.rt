// Lists of symbols by number: the first is empty, each other one has a symbol on top of an earlier one.
use gg_base::NoMemory;
use indexmap::IndexSet;
use lr_tables::symbol_number;
use md_reader::Sym;
use std::alloc::Global;

#[derive(Clone, Copy, Debug, PartialEq, Eq, Hash)]
struct Pair {
    upper: usize,
    lower: usize,
}

#[derive(Clone, Copy, Debug)]
struct Cell {
    top: Sym,
    rest: usize,
    size: usize,
}

/// The lists, and which two were joined to which.
#[derive(Drop)]
pub struct Lists {
    numbers: IndexSet<Pair>,
    cells: Vec<Cell>,
    pairs: IndexSet<Pair>,
    joined: Vec<usize>,
}

impl Lists {
    pub fn new(alloc: Global) -> Self {
        Lists {
            numbers: IndexSet::new(alloc),
            cells: Vec::new(alloc),
            pairs: IndexSet::new(alloc),
            joined: Vec::new(alloc),
        }
    }

    fn cell(&self, list: usize) -> Option<&Cell> {
        if list == 0 {
            return None;
        }
        self.cells.get(list - 1)
    }

    /// How many symbols a list has.
    pub fn size(&self, list: usize) -> usize {
        match self.cell(list) {
            Some(cell) => cell.size,
            None => 0,
        }
    }

    /// The symbol on top of a list.
    pub fn push(&mut self, top: Sym, rest: usize) -> Result<usize, NoMemory> {
        let size = self.size(rest).wrapping_add(1);
        let pair = Pair {
            upper: symbol_number(top),
            lower: rest,
        };
        let (number, is_new) = self.numbers.insert_full(pair)?;
        if is_new {
            self.cells.push(Cell { top, rest, size })?;
        }
        Ok(number.wrapping_add(1))
    }

    // The symbols of a list, the last one first.
    fn symbols(&self, alloc: Global, list: usize) -> Result<Vec<Sym>, NoMemory> {
        let mut symbols = Vec::new(alloc);
        let mut rest = list;
        for _at in 0..self.size(list) {
            if let Some(cell) = self.cell(rest) {
                symbols.push(cell.top)?;
                rest = cell.rest;
            }
        }
        Ok(symbols)
    }

    fn join_anew(&mut self, alloc: Global, upper: usize, lower: usize) -> Result<usize, NoMemory> {
        let symbols = self.symbols(alloc, upper)?;
        let mut number = lower;
        for symbol in symbols.iter().rev() {
            number = self.push(*symbol, number)?;
        }
        Ok(number)
    }

    /// The one list on top of the other.
    pub fn join(&mut self, alloc: Global, upper: usize, lower: usize) -> Result<usize, NoMemory> {
        let (number, is_new) = self.pairs.insert_full(Pair { upper, lower })?;
        if is_new {
            let list = self.join_anew(alloc, upper, lower)?;
            self.joined.push(list)?;
        }
        match self.joined.get(number) {
            Some(list) => Ok(*list),
            None => Ok(0),
        }
    }
}
