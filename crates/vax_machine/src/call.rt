// Calls, returns and the two services.
ghost use Rattle.std.specs.Prelude.{◌≡◌, ◌<◌, length, slice_get, IsSome};
ghost use Rattle.vax_machine.specs.Calls.{entry_mask};

use crate::function::Conditions;
use crate::machine::Machine;
use crate::turn::{self, BAD_CODE, STACK_FULL, Stop};
use gg_base::limits::FRAME_LIMIT;
use gg_base::{Name, Size, w32};
use vax_core::{CodeItem, Reg};
use vax_machine_live::Frame;

// The entry mask at a place, where one stands there.
fn entry_mask(items: &[CodeItem], place: usize) -> Option<u16>
    ensures mask { result ≡ entry_mask (slice_get items.now place) }
    ensures bound { IsSome result → place < length items.now }
{
    if place >= items.len() {
        return None;
    }
    match &items[place] {
        CodeItem::Mask(mask) => Some(*mask),
        _ => None,
    }
}

impl<'a> Machine<'a> {
    ghost use Rattle.vax_core.specs.declared.register.Reg.TheVariants.{Sp};
    ghost use Rattle.vax_machine_live.specs.Owners.{HasRoom};
    ghost use Rattle.vax_machine.specs.State.{Does, Leaves, reg};
    ghost use Rattle.vax_machine.specs.Calls.{pushed, reserved, all_reserved, entered, framed, called, returned, putchar, getchar};
    ghost use Rattle.vax_machine.specs.Calls.{called_by_name, restored, left, back_to};
    ghost use Rattle.vax_machine.specs.View.{state};
    ghost use Rattle.vax_machine.specs.Tables.{target_of};

    /// Puts a longword on the stack.
    #[tactic(auto, unfolding(crate::specs::Calls::pushed))]
    pub(crate) fn push(&mut self, value: u32) -> Result<(), Stop>
        ensures { Leaves result (state self.new) (pushed (state self.old) value) }
    {
        let sp = w32::sub(self.register(Reg::Sp), 4);
        self.set_register(Reg::Sp, sp)?;
        self.write(sp, Size::Long, value)
    }

    // Makes room for a control word.
    #[tactic(auto, unfolding(crate::specs::Calls::reserved))]
    fn reserve(&mut self) -> Result<(), Stop>
        ensures { Leaves result (state self.new) (reserved (state self.old)) }
    {
        let sp = w32::sub(self.register(Reg::Sp), 4);
        self.set_register(Reg::Sp, sp)?;
        let _region = self.touch(sp, Size::Long)?;
        Ok(())
    }

    fn reserve_all(&mut self, count: u32) -> Result<(), Stop>
        ensures { Leaves result (state self.new) (all_reserved count (state self.old)) }
    {
        for _ in 0..count {
            self.reserve()?;
        }
        Ok(())
    }

    fn enter(
        &mut self,
        ap: u32,
        top: u32,
        mask: u16,
        behind: usize,
        back: Option<usize>,
    ) -> Result<(), Stop>
        requires { HasRoom self.old.frames (reg (state self.old) Sp) top }
        ensures { Leaves result (state self.new) (entered (state self.old) ap top mask behind back) }
    {
        if self.frames.len() >= FRAME_LIMIT as usize {
            return Err(STACK_FULL);
        }
        let fp = self.register(Reg::Sp);
        self.frames.push(Frame {
            fp,
            top,
            ap,
            mask,
            saved: self.registers,
            back,
        });
        self.registers[13] = fp;
        self.registers[12] = ap;
        self.conditions = Conditions::CLEARED;
        self.place = behind;
        Ok(())
    }

    fn frame(&mut self, ap: u32, entry: usize, back: Option<usize>) -> Result<(), Stop>
        ensures { Leaves result (state self.new) (framed (state self.old) ap
            (entry_mask (slice_get self.old.program.items.now entry)) entry back) }
    {
        let Some(mask) = entry_mask(self.program.items, entry) else {
            return Err(BAD_CODE);
        };
        let behind = entry + 1;
        let top = ap - ap % 4;
        self.set_register(Reg::Sp, top)?;
        self.reserve_all(mask.count_ones() + 5)?;
        self.enter(ap, top, mask, behind, back)
    }

    /// Calls the code at a place with so many arguments; execution goes on at `back` after the return.
    #[tactic(auto, unfolding(crate::specs::Calls::called))]
    pub(crate) fn call(&mut self, count: u32, place: usize, back: Option<usize>) -> Result<(), Stop>
        ensures { Leaves result (state self.new) (called (state self.old) count place back) }
    {
        self.push(count)?;
        let ap = self.register(Reg::Sp);
        let entry = self.program.next_item(place);
        self.frame(ap, entry, back)
    }

    // A register after a return.
    fn restored(&self, f: &Frame, r: u8) -> u32
        requires { r < 12 }
        ensures { result ≡ restored (state self.now) f.now r }
    {
        if (f.mask >> r) % 2 == 1 {
            f.saved[r as usize]
        } else {
            self.registers[r as usize]
        }
    }

    // Restores the registers that a frame saved, and takes its arguments off the stack.
    fn leave(&mut self, f: &Frame, count: u32)
        ensures { state self.new ≡ left (state self.old) f.now count }
    {
        self.registers = [
            self.restored(f, 0),
            self.restored(f, 1),
            self.restored(f, 2),
            self.restored(f, 3),
            self.restored(f, 4),
            self.restored(f, 5),
            self.restored(f, 6),
            self.restored(f, 7),
            self.restored(f, 8),
            self.restored(f, 9),
            self.restored(f, 10),
            self.restored(f, 11),
            f.saved[12],
            f.saved[13],
            w32::add(f.ap, w32::add(4, w32::mul(4, count))),
        ];
        self.conditions = Conditions::CLEARED;
    }

    fn go_back(&mut self, back: Option<usize>) -> Result<Option<u8>, Stop>
        ensures { Does result (state self.new) (back_to (state self.old) back) }
    {
        match back {
            None => Err(Stop::Ended(self.register(Reg::R0))),
            Some(place) => {
                self.place = place;
                Ok(None)
            }
        }
    }

    /// Returns from the innermost frame.
    #[tactic(auto, unfolding(crate::specs::Calls::returned))]
    pub(crate) fn return_from_call(&mut self) -> Result<Option<u8>, Stop>
        ensures { Does result (state self.new) (returned (state self.old)) }
    {
        let Some(f) = self.frames.innermost() else {
            return Err(BAD_CODE);
        };
        if self.register(Reg::Fp) != f.fp {
            return Err(turn::FRAME);
        }
        self.frames.pop();
        let count = self.read(f.ap, Size::Byte)?;
        self.leave(&f, count);
        self.go_back(f.back)
    }

    // The service `putchar`.
    #[tactic(auto, unfolding(crate::specs::Calls::putchar))]
    fn putchar(&mut self, count: u32) -> Result<Option<u8>, Stop>
        ensures { Does result (state self.new) (putchar (state self.old) count) }
    {
        if count != 1 {
            return Err(BAD_CODE);
        }
        let sp = self.register(Reg::Sp);
        let value = self.read(sp, Size::Long)?;
        self.set_register(Reg::Sp, w32::add(sp, 4))?;
        let byte = (value % 0x100) as u8;
        self.registers[0] = byte as u32;
        self.conditions = Conditions::CLEARED;
        Ok(Some(byte))
    }

    // The service `getchar`.
    #[tactic(auto, unfolding(crate::specs::Calls::getchar))]
    fn getchar(&mut self, count: u32) -> Result<Option<u8>, Stop>
        ensures { Does result (state self.new) (getchar (state self.old) count) }
    {
        if count != 0 {
            return Err(BAD_CODE);
        }
        self.conditions = Conditions::CLEARED;
        match self.input {
            [] => self.registers[0] = u32::MAX,
            [byte, rest @ ..] => {
                self.registers[0] = *byte as u32;
                self.input = rest;
            }
        }
        Ok(None)
    }

    /// Calls a service or the code at a label, which stands at this place.
    #[tactic(auto, unfolding(crate::specs::Calls::called_by_name))]
    pub(crate) fn call_by_name(
        &mut self,
        count: u32,
        target: &Option<Name>,
        place: usize,
    ) -> Result<Option<u8>, Stop>
        requires { place ≡ target_of self.old.program.items.now target.now }
        ensures { Does result (state self.new) (called_by_name (state self.old) count target.now) }
    {
        let Some(name) = target else {
            return Err(BAD_CODE);
        };
        if name.as_slice() == b"_putchar".as_slice() {
            return self.putchar(count);
        }
        if name.as_slice() == b"_getchar".as_slice() {
            return self.getchar(count);
        }
        let back = self.place;
        self.call(count, place, Some(back))?;
        Ok(None)
    }
}
