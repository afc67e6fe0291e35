// Operands and instructions of the toy machine.

use gg_base::{Rel, Size};

/// An operand.
#[derive(Clone, Copy, Debug, PartialEq, Eq)]
pub enum Operand {
    /// A register.
    Register(u8),
    /// The memory at the address that a register holds.
    Based(u8),
    /// A word of the frame.
    Word(u32),
    /// The memory at the address that a word of the frame holds.
    Deferred(u32),
    /// An argument, from 1.
    Argument(u32),
    /// A number.
    Number(u32),
}

/// What an instruction reads: the number that an operand reads, or the address that it names.
#[derive(Clone, Copy, Debug, PartialEq, Eq)]
pub enum Source {
    Read(Operand),
    Address(Operand),
}

/// What an instruction writes: a register, a word of the frame, or nothing.
#[derive(Clone, Copy, Debug, PartialEq, Eq)]
pub enum Destination {
    Register(u8),
    Word(u32),
    Nowhere,
}

/// An instruction.
#[derive(Clone, Copy, Debug, PartialEq, Eq)]
pub enum Instr {
    Move(Size, Source, Destination),
    Add(Source, Source, Destination),
    Divide(Source, Source, Destination),
    /// A number is put in a place of a size.
    Store(Size, Operand, Source),
    Push(Source),
    Branch(Rel, Source, Source, u32),
    Jump(u32),
    /// A function or a service by its number, with as many arguments.
    Call(u32, u32),
    Return(Source),
    /// A word gets the last call's result.
    Save(u32),
    /// What no line means.
    Stop,
}
