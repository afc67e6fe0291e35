// Lists of symbols, each held once.
ghost use Rattle.std.specs.Prelude.{◌≡◌, ◌∷◌, ◌++◌, Some, slice_get, slice_index_or, length, IfOk, IfSome, [], ℕ, List};
ghost use Rattle.md_reader.specs.declared.types.Sym.{Sym};
ghost use Rattle.lr_check_found.specs.Lists.{IsList, AreLists, KeepsLists, IsPushed, IsJoined, IsBehindToken};

use crate::table::{find_cell, insert_cell};
use gg_base::NoMemory;
use indexmap::IndexSet;
use lr_tables::symbol_number;
use md_reader::{Sym, Symbols};
use std::alloc::Global;
use std::marker::Model;
use tree_core::Tok;

/// A symbol, by its number, on top of a list, by its number.
#[derive(Clone, Copy, Debug, PartialEq, Eq, Hash)]
pub(crate) struct Cell {
    pub symbol: usize,
    pub rest: usize,
}

/// Lists of symbols by number, each held once, with its last symbol first. The first list is empty.
#[derive(Drop)]
pub struct Lists {
    cells: IndexSet<Cell>,
    all: Vec<Symbols>,
}

impl Model for Lists {
    ghost use Rattle.lr_check_found.specs.Lists.{ListsView};

    ghost Value = { ListsView };

    ghost view = { λ l. record { cells = l.cells.keys; all = l.all.items } };
}

impl Lists {
    /// The empty list alone.
    pub fn new(alloc: Global) -> Result<Self, NoMemory>
        ensures { IfOk result (λ l. AreLists l) }
    {
        let mut all = Vec::new(alloc);
        all.push(Symbols::from_vec(Vec::new(alloc)))?;
        Ok(Lists {
            cells: IndexSet::new(alloc),
            all,
        })
    }

    /// The list with this number; a number without a list has the empty one.
    pub fn get(&self, number: usize) -> &[Sym]
        ensures { result.now ≡ slice_index_or self.now.all number [] }
    {
        match self.all.get(number) {
            Some(list) => list.as_slice(),
            None => &[],
        }
    }

    /// The number of the symbol on top of a list, if it is held.
    pub fn find(&self, symbol: Sym, rest: usize) -> Option<usize>
        requires { AreLists self.now }
        ensures { IfSome result (λ n. IsPushed self.now symbol rest n) }
    {
        let cell = Cell {
            symbol: symbol_number(symbol),
            rest,
        };
        match find_cell(&self.cells, cell) {
            Some(number) => Some(number + 1),
            None => None,
        }
    }

    /// The number of the one list on top of the other, if it is held.
    pub fn find_joined(&self, upper: usize, lower: usize) -> Option<usize>
        requires { AreLists self.now }
        ensures { IfSome result (λ n. IsJoined self.now upper lower n) }
    {
        let mut number = lower;
        for symbol in self.get(upper).iter().rev() {
            number = self.find(*symbol, number)?;
        }
        Some(number)
    }

    // The symbol on top of a list.
    fn longer(&self, alloc: Global, symbol: Sym, rest: usize) -> Result<Symbols, NoMemory>
        ensures { IfOk result (λ s. s ≡ symbol ∷ slice_index_or self.now.all rest []) }
    {
        let mut list = Vec::new(alloc);
        list.push(symbol)?;
        list.extend_from_slice(self.get(rest))?;
        Ok(Symbols::from_vec(list))
    }

    /// The number of the symbol on top of a list, which is held from now on.
    pub fn push(&mut self, alloc: Global, symbol: Sym, rest: usize) -> Result<usize, NoMemory>
        requires lists { AreLists self.old }
        requires there { (s : List Sym) × IsList self.old rest s }
        ensures lists { IfOk result (λ n. AreLists self.new) }
        ensures kept { IfOk result (λ n. KeepsLists self.old self.new) }
        ensures number { IfOk result (λ n. IsPushed self.new symbol rest n) }
        ensures there { IfOk result (λ n. (s : List Sym) × IsList self.new n s) }
    {
        let cell = Cell {
            symbol: symbol_number(symbol),
            rest,
        };
        let (number, is_new) = insert_cell(&mut self.cells, cell)?;
        if !is_new {
            return Ok(number + 1);
        }
        let list = self.longer(alloc, symbol, rest)?;
        self.all.push(list)?;
        Ok(number + 1)
    }

    /// The number of the lists on top of each other and the token, if it is held.
    pub fn find_behind(&self, token: Tok, upper: usize, lower: usize) -> Option<usize>
        requires { AreLists self.now }
        ensures { IfSome result (λ n. IsBehindToken self.now token upper lower n) }
    {
        let last = self.find(Sym::Tok(token), 0)?;
        let below = self.find_joined(lower, last)?;
        self.find_joined(upper, below)
    }

    /// The number of the lists on top of each other and the token, which is held from now on.
    pub fn join_behind(
        &mut self,
        alloc: Global,
        token: Tok,
        upper: usize,
        lower: usize,
    ) -> Result<usize, NoMemory>
        requires lists { AreLists self.old }
        requires upper { (s : List Sym) × IsList self.old upper s }
        requires lower { (s : List Sym) × IsList self.old lower s }
        ensures lists { IfOk result (λ n. AreLists self.new) }
        ensures kept { IfOk result (λ n. KeepsLists self.old self.new) }
        ensures number { IfOk result (λ n. IsBehindToken self.new token upper lower n) }
    {
        let last = self.push(alloc, Sym::Tok(token), 0)?;
        let below = self.join(alloc, lower, last)?;
        self.join(alloc, upper, below)
    }

    /// The number of the one list on top of the other, which is held from now on.
    pub fn join(&mut self, alloc: Global, upper: usize, lower: usize) -> Result<usize, NoMemory>
        requires lists { AreLists self.old }
        requires upper { (s : List Sym) × IsList self.old upper s }
        requires lower { (s : List Sym) × IsList self.old lower s }
        ensures lists { IfOk result (λ n. AreLists self.new) }
        ensures kept { IfOk result (λ n. KeepsLists self.old self.new) }
        ensures number { IfOk result (λ n. IsJoined self.new upper lower n) }
        ensures there { IfOk result (λ n. (s : List Sym) × IsList self.new n s) }
    {
        let mut number = lower;
        for at in (0..self.get(upper).len()).rev() {
            let symbol = self.get(upper)[at];
            number = self.push(alloc, symbol, number)?;
        }
        Ok(number)
    }
}
