// All live frames, and which longwords of the stack hold their control words.
ghost use Rattle.std.specs.Prelude.{◌≡◌, ℕ, ◌+◌, ◌-◌, ◌≤◌, ◌<◌, ◌++◌, [], ◌∷◌, length, take, slice_get, slice_index};
ghost use Rattle.std.specs.Prelude.{vec_capacity, IfOk};
ghost use Rattle.gg_base.specs.declared.limits.TheConstants.{FRAME_LIMIT, STACK_START, STACK_TOP};
ghost use Rattle.vax_machine_live.specs.Control.{in_control};
ghost use Rattle.vax_machine_live.specs.Owners.{AreOwned, HasRoom, Gives};

use crate::frame::Frame;
use gg_base::limits::{FRAME_LIMIT, STACK_SIZE, STACK_TOP};
use std::alloc::{AllocError, Global};
use std::marker::Model;

/// The frames that are live, the innermost last, at most `FRAME_LIMIT`.
#[derive(Drop)]
pub struct Frames {
    held: Vec<Frame>,
    /// For each longword of the stack, from its top down as far as one was a control word: the number of the frame whose it was last.
    owners: Vec<u16>,
}

impl Model for Frames {
    ghost use Rattle.std.specs.Prelude.{List};
    ghost use Rattle.vax_machine_live.specs.declared.frame.Frame.{Frame};
    ghost use Rattle.vax_machine_live.specs.Owners.{AreKept};

    ghost Value = { List Frame };

    ghost view = { λ f. f.held.items };

    ghost invariant = { λ f. AreKept f.held f.owners };
}

// Goes down the stack until so many longwords have an owner. One that never was a control word gets any number.
fn reach(owners: &mut Vec<u16>, count: usize)
    requires { count ≤ vec_capacity owners.old }
    ensures long { count ≤ length owners.new.items }
    ensures more { length owners.old.items ≤ length owners.new.items }
    ensures kept { (place : ℕ) → place < length owners.old.items → slice_index owners.new.items place ≡ slice_index owners.old.items place }
    ensures room { vec_capacity owners.new ≡ vec_capacity owners.old }
{
    while owners.len() < count {
        owners.push_reserved(0);
    }
}

// The longwords from a place up to another belong to the frame of this number from now on.
fn give(owners: &mut [u16], first: usize, last: usize, number: u16)
    requires order { first ≤ last }
    requires within { last ≤ length owners.old }
    ensures gives { Gives number first last owners.old owners.new }
    ensures long { length owners.new ≡ length owners.old }
{
    owners[first..last].fill(number);
}

// Whether the byte of the stack at an address is a control word of one of these frames.
fn is_control(frames: &[Frame], owners: &[u16], address: u32) -> bool
    requires owned { AreOwned frames.now owners.now }
    requires high { address < STACK_TOP }
    ensures { result ≡ in_control frames.now address 1 }
{
    let place = (STACK_TOP - 1 - address) as usize / 4;
    if owners.len() <= place {
        return false;
    }
    match frames.get(owners[place] as usize) {
        None => false,
        Some(f) => f.holds(address),
    }
}

impl Frames {
    /// No frames, with memory for as many as there may be and for all their control words.
    pub fn new(alloc: Global) -> Result<Self, AllocError>
        ensures { IfOk result (λ f. f ≡ []) }
    {
        Ok(Frames {
            held: Vec::with_capacity(alloc, FRAME_LIMIT as usize)?,
            owners: Vec::with_capacity(alloc, STACK_SIZE as usize / 4)?,
        })
    }

    /// How many are live.
    pub fn len(&self) -> usize
        ensures { result ≡ length self.now }
    {
        self.held.len()
    }

    /// The innermost frame.
    pub fn innermost(&self) -> Option<Frame>
        ensures { result ≡ slice_get self.now (length self.now - 1) }
    {
        self.held.last().copied()
    }

    /// Takes the innermost frame away.
    pub fn pop(&mut self)
        ensures { self.new ≡ take (length self.old - 1) self.old }
    {
        let _ = self.held.pop();
    }

    /// Puts a frame inside the others. Its control words are in the stack, at multiples of 4, and none of theirs.
    pub fn push(&mut self, f: Frame)
        requires few { length self.old < FRAME_LIMIT }
        requires room { HasRoom self.old f.fp f.top }
        ensures { self.new ≡ self.old ++ f ∷ [] }
    {
        let first = (STACK_TOP - f.top) as usize / 4;
        let last = (STACK_TOP - f.fp) as usize / 4;
        let number = self.held.len() as u16;
        reach(&mut self.owners, last);
        give(self.owners.as_mut_slice(), first, last, number);
        self.held.push_reserved(f);
    }

    /// Whether some of the `count` bytes of the stack from an address on, at most 4, are control words of a live frame.
    pub fn hold(&self, address: u32, count: u32) -> bool
        requires low { STACK_START ≤ address }
        requires some { 1 ≤ count }
        requires few { count ≤ 4 }
        requires high { address + count ≤ STACK_TOP }
        ensures { result ≡ in_control self.now address count }
    {
        let frames = self.held.as_slice();
        let owners = self.owners.as_slice();
        is_control(frames, owners, address) || is_control(frames, owners, address + (count - 1))
    }
}
