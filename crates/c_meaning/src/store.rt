// Where values are kept.

ghost use Rattle.std.specs.Prelude.{◌≡◌, ◌<◌, ◌+◌, [], IfOk, IfSome, Some, is_some, unwrap_or, replicate, drop};
ghost use Rattle.std.specs.Option.{option_copied};
ghost use Rattle.gg_base.specs.declared.limits.TheConstants.{ACTIVE_CALL_LIMIT};
ghost use Rattle.c_meaning.specs.State.{access_size, held, put_local, put, put_zeros, spot_of, address, block_address, loaded};
ghost use Rattle.c_meaning.specs.declared.store.Spot.TheVariants.{Memory};
ghost use Rattle.c_meaning.specs.Parts.{state, activation, got_byte};

use c_types::constant::convert;
use c_types::{CType, Integer, Variable};
use gg_base::{Size, w32};
use std::alloc::{AllocError, Global};
use std::mem;
use tree_core::Object;
use tree_core::area::{fetch, store};

/// Where a value is kept: an automatic local or a parameter of the call that runs, memory at an address, or at an offset of
/// the call's block.
#[derive(Clone, Copy, Debug, PartialEq, Eq)]
pub enum Spot {
    Local(u32),
    Parameter(u32),
    Memory(u32),
    InBlock(u32),
}

/// The automatic locals and the parameters of a call, each by its number, and where the block of its memory locals lies.
#[derive(Drop)]
pub(crate) struct Activation {
    pub(crate) locals: Vec<u32>,
    pub(crate) parameters: Vec<u32>,
    pub(crate) block: Option<u32>,
}

impl Activation {
    /// That of no call.
    pub(crate) fn empty(alloc: Global) -> Activation {
        Activation {
            locals: Vec::new(alloc),
            parameters: Vec::new(alloc),
            block: None,
        }
    }
}

/// What a program reads and changes: the call that runs, the data area, the input that is left, and how many calls are
/// active.
#[derive(Drop)]
pub(crate) struct Store<'a> {
    pub(crate) call: Activation,
    pub(crate) area: Vec<u8>,
    pub(crate) input: &'a [u8],
    pub(crate) active: u32,
}

/// The bytes that a value of a type takes in memory. None for `void`.
pub(crate) fn access_size(of: CType) -> Option<Size>
    ensures { result ≡ access_size of }
{
    match of {
        CType::Void => None,
        CType::Integer(Integer::Char) => Some(Size::Byte),
        CType::Integer(Integer::UnsignedChar) => Some(Size::Byte),
        CType::Integer(Integer::Short) => Some(Size::Word),
        CType::Integer(Integer::UnsignedShort) => Some(Size::Word),
        CType::Integer(Integer::Int) => Some(Size::Long),
        CType::Pointer(_, _) => Some(Size::Long),
    }
}

/// The address of an object, by its number. None where there is no such object.
pub(crate) fn address_at(objects: &[Object], number: usize) -> Option<u32>
    ensures { result ≡ address objects.now number }
{
    Some(objects.get(number)?.address)
}

/// The same, by a number of 32 bits.
pub(crate) fn address(objects: &[Object], number: u32) -> Option<u32>
    ensures { result ≡ address objects.now number }
{
    address_at(objects, number as usize)
}

/// Where a variable is kept. None for the variable of an object that there is not.
pub(crate) fn spot_of(objects: &[Object], variable: Variable) -> Option<Spot>
    ensures { result ≡ spot_of objects.now variable }
{
    match variable {
        Variable::Automatic(number) => Some(Spot::Local(number)),
        Variable::Parameter(number) => Some(Spot::Parameter(number)),
        Variable::Global(object) => Some(Spot::Memory(address(objects, object)?)),
        Variable::Static(object) => Some(Spot::Memory(address(objects, object)?)),
        Variable::InBlock(offset) => Some(Spot::InBlock(offset)),
    }
}

/// So many zeros.
pub(crate) fn zeros(alloc: Global, count: usize) -> Result<Vec<u32>, AllocError>
    ensures { IfOk result (λ v. v.items ≡ replicate count 0) }
{
    vec![in alloc; 0; count]
}

impl<'a> Store<'a> {
    /// Before the first call, which has these locals and no parameters.
    pub(crate) fn begin(
        alloc: Global,
        locals: Vec<u32>,
        area: Vec<u8>,
        input: &'a [u8],
    ) -> Store<'a>
        ensures { state result ≡ record {
          call = record { locals = locals.items; parameters = []; block = None };
          area = area.items;
          input =
              input.now;
          active = 1;
        } }
    {
        let call = Activation {
            locals,
            parameters: Vec::new(alloc),
            block: None,
        };
        Store {
            call,
            area,
            input,
            active: 1,
        }
    }

    /// The value of a type that is kept somewhere. None where there is no such local or parameter, or where a byte of it
    /// lies outside the data area.
    pub(crate) fn held(&self, of: CType, spot: Spot) -> Option<u32>
        ensures { result ≡ held of spot (state self.now) }
    {
        match spot {
            Spot::Local(number) => self.call.locals.get(number as usize).copied(),
            Spot::Parameter(number) => self.call.parameters.get(number as usize).copied(),
            Spot::Memory(address) => self.load(of, address),
            Spot::InBlock(offset) => self.load(of, self.block_address(offset)?),
        }
    }

    /// The address of an offset in the block of the call that runs. None where it has no block.
    pub(crate) fn block_address(&self, offset: u32) -> Option<u32>
        ensures { result ≡ block_address (activation self.now.call) offset }
    {
        Some(w32::add(self.call.block?, offset))
    }

    // The value of a type in memory.
    fn load(&self, of: CType, address: u32) -> Option<u32>
        ensures { result ≡ loaded of (access_size of) (state self.now).area address }
    {
        let value = fetch(&self.area, access_size(of)?, address)?;
        Some(convert(of, value))
    }

    // Puts the low bytes of a value into memory. False, with nothing changed, where a byte of it lies outside the data area.
    fn keep(&mut self, of: CType, address: u32, value: u32) -> bool
        ensures done { result ≡ is_some (put of (Memory address) value (state self.old)) }
        ensures new { state self.new ≡ unwrap_or (put of (Memory address) value (state self.old)) (state self.old) }
    {
        match access_size(of) {
            None => false,
            Some(size) => store(&mut self.area, size, address, value),
        }
    }

    /// Puts a value into an automatic local. False, with nothing changed, where there is no such local.
    pub(crate) fn put_local(&mut self, number: u32, value: u32) -> bool
        ensures done { result ≡ is_some (put_local number value (state self.old)) }
        ensures new { state self.new ≡ unwrap_or (put_local number value (state self.old)) (state self.old) }
    {
        let number = number as usize;
        if number < self.call.locals.len() {
            self.call.locals[number] = value;
            true
        } else {
            false
        }
    }

    /// Puts a value that is converted to a type somewhere. False, with nothing changed, where there is no such local or
    /// parameter, or where a byte of it lies outside the data area.
    pub(crate) fn put(&mut self, of: CType, spot: Spot, value: u32) -> bool
        ensures done { result ≡ is_some (put of spot value (state self.old)) }
        ensures new { state self.new ≡ unwrap_or (put of spot value (state self.old)) (state self.old) }
    {
        match spot {
            Spot::Local(number) => self.put_local(number, value),
            Spot::Parameter(number) => {
                let number = number as usize;
                if number < self.call.parameters.len() {
                    self.call.parameters[number] = value;
                    true
                } else {
                    false
                }
            }
            Spot::Memory(address) => self.keep(of, address, value),
            Spot::InBlock(offset) => match self.block_address(offset) {
                None => false,
                Some(address) => self.keep(of, address, value),
            },
        }
    }

    /// Puts zeros into so many elements of the block, from an offset on. False where a byte of them lies outside the data area.
    pub(crate) fn put_zeros(&mut self, of: CType, offset: u32, count: u32) -> bool
        ensures done { result ≡ is_some (put_zeros of offset count (Some (state self.old))) }
        ensures new { IfSome (put_zeros of offset count (Some (state self.old))) (λ st. state self.new ≡ st) }
    {
        let mut next = offset;
        for _ in 0..count {
            if !self.put(of, Spot::InBlock(next), 0) {
                return false;
            }
            next = w32::add(next, of.size());
        }
        true
    }

    /// The next byte of the input, or -1 at its end.
    pub(crate) fn get(&mut self) -> u32
        ensures value { result ≡ got_byte (state self.old).input }
        ensures rest { state self.new ≡ record (state self.old) { input = drop 1 (state self.old).input } }
    {
        match self.input.split_first() {
            None => u32::MAX,
            Some((byte, rest)) => {
                self.input = rest;
                u32::from(*byte)
            }
        }
    }

    /// Begins a call, and answers the one that waits for it.
    pub(crate) fn enter(&mut self, call: Activation) -> Activation
        requires { self.old.active < ACTIVE_CALL_LIMIT }
        ensures caller { result ≡ self.old.call }
        ensures new { state self.new ≡ record (state self.old) { call = activation call; active = self.old.active + 1 } }
    {
        self.active += 1;
        mem::replace(&mut self.call, call)
    }

    /// Goes back to the call that waits, of so many active ones.
    pub(crate) fn leave(&mut self, caller: Activation, active: u32)
        ensures { state self.new ≡ record (state self.old) { call = activation caller; active = active } }
    {
        self.call = caller;
        self.active = active;
    }
}
