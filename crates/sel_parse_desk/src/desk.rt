// What a selection works on.
ghost use Rattle.std.specs.Prelude.{◌≡◌};

use crate::entries::Entries;
use crate::stack::Stack;
use gg_base::NoMemory;
use md_reader::Description;
use std::alloc::{AllocError, AllocFailed, Global};
use tree_core::TreeProgram;

/// Why a reduction was not made.
#[derive(Drop)]
pub enum DeskFault {
    NoMemory,
    /// A spill was due, and no frame word was free.
    FrameFull,
    /// A register was due that no entry could give up.
    NoRegister,
}

impl From<NoMemory> for DeskFault {
    ghost use Rattle.std.specs.Prelude.{◌≡◌};
    ghost use Rattle.sel_parse_desk.specs.declared.desk.DeskFault.TheVariants as desk_fault;

    ghost from_gives = { λ _ e. e ≡ desk_fault.NoMemory };

    fn from(_: NoMemory) -> Self {
        DeskFault::NoMemory
    }
}

impl From<AllocError> for DeskFault {
    ghost use Rattle.std.specs.Prelude.{◌≡◌};
    ghost use Rattle.sel_parse_desk.specs.declared.desk.DeskFault.TheVariants as desk_fault;

    ghost from_gives = { λ _ e. e ≡ desk_fault.NoMemory };

    fn from(_: AllocError) -> Self {
        DeskFault::NoMemory
    }
}

impl<T: Drop> From<AllocFailed<T>> for DeskFault {
    ghost use Rattle.std.specs.Prelude.{◌≡◌};
    ghost use Rattle.sel_parse_desk.specs.declared.desk.DeskFault.TheVariants as desk_fault;

    ghost from_gives = { λ _ e. e ≡ desk_fault.NoMemory };

    fn from(_: AllocFailed<T>) -> Self {
        DeskFault::NoMemory
    }
}

/// What stays the same in a selection: the target, the program whose names are spelled, the description, and the first frame word that may
/// hold a value.
#[derive(Drop)]
pub struct Setting<'a, T> {
    pub alloc: Global,
    pub target: &'a T,
    pub program: &'a TreeProgram,
    pub description: &'a Description,
    pub first: u32,
}

/// The stack with the code so far. In a reduction the rule's symbols are apart, and words that were let go wait for its end.
#[derive(Drop)]
pub struct Desk<O, I> {
    pub stack: Stack<O>,
    pub symbols: Entries<O>,
    pub late: Vec<u32>,
    pub code: Vec<I>,
    /// How many frame words were used.
    pub most: u32,
}
