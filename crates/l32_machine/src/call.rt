// Calls, returns and the two services.
ghost use Rattle.std.specs.Prelude.{◌≡◌};

use crate::frame::Frame32;
use crate::machine::Machine32;
use crate::turn::{BAD_CODE, STACK_FULL, Stop32};
use gg_base::limits::FRAME_LIMIT;
use gg_base::{Name, Size, w32};

impl<'a> Machine32<'a> {
    ghost use Rattle.l32_machine.specs.State.{Does, Leaves};
    ghost use Rattle.l32_machine.specs.Calls.{pushed, noted, called, taken_back, back_to, returned, putchar, getchar, called_by_name};
    ghost use Rattle.l32_machine.specs.View.{state};
    ghost use Rattle.l32_machine.specs.Tables.{target_of};

    /// Puts a longword on the stack.
    #[tactic(auto, unfolding(crate::specs::Calls::pushed))]
    pub(crate) fn push(&mut self, value: u32) -> Result<(), Stop32>
        ensures { Leaves result (state self.new) (pushed (state self.old) value) }
    {
        let sp = w32::sub(self.sp, 4);
        self.set_sp(sp)?;
        self.write(sp, Size::Long, value)
    }

    // What a call with so many arguments notes.
    fn noted(&self, count: u32) -> Frame32
        ensures { result ≡ noted (state self.now) count }
    {
        Frame32 {
            general: self.general,
            fp: self.fp,
            sp: w32::add(self.sp, w32::mul(4, count)),
            back: Some(self.place),
        }
    }

    // Calls the code at a place with so many arguments.
    #[tactic(auto, unfolding(crate::specs::Calls::called))]
    fn call(&mut self, count: u32, place: usize) -> Result<(), Stop32>
        ensures { Leaves result (state self.new) (called (state self.old) count place) }
    {
        if self.frames.len() >= FRAME_LIMIT as usize {
            return Err(STACK_FULL);
        }
        let noted = self.noted(count);
        self.frames.push_reserved(noted);
        self.fp = self.sp;
        self.place = place;
        Ok(())
    }

    // Takes back all that a frame notes but its stack pointer.
    fn take_back(&mut self, f: &Frame32)
        ensures { state self.new ≡ taken_back (state self.old) self.old.frames.items f.now }
    {
        let result = self.register(0);
        self.general = f.general;
        self.general[0] = result;
        self.fp = f.fp;
    }

    fn go_back(&mut self, sp: u32, back: Option<usize>) -> Result<Option<u8>, Stop32>
        ensures { Does result (state self.new) (back_to (state self.old) sp back) }
    {
        match back {
            None => Err(Stop32::Ended(self.register(0))),
            Some(place) => {
                self.place = place;
                self.set_sp(sp)?;
                Ok(None)
            }
        }
    }

    /// Returns from the innermost frame.
    #[tactic(auto, unfolding(crate::specs::Calls::returned))]
    pub(crate) fn return_from_call(&mut self) -> Result<Option<u8>, Stop32>
        ensures { Does result (state self.new) (returned (state self.old)) }
    {
        let Some(f) = self.frames.pop() else {
            return Err(BAD_CODE);
        };
        self.take_back(&f);
        self.go_back(f.sp, f.back)
    }

    // The service `putchar`.
    #[tactic(auto, unfolding(crate::specs::Calls::putchar))]
    fn putchar(&mut self, count: u32) -> Result<Option<u8>, Stop32>
        ensures { Does result (state self.new) (putchar (state self.old) count) }
    {
        if count != 1 {
            return Err(BAD_CODE);
        }
        let sp = self.sp;
        let value = self.read(sp, Size::Long)?;
        self.set_sp(w32::add(sp, 4))?;
        let byte = (value % 0x100) as u8;
        self.general[0] = byte as u32;
        Ok(Some(byte))
    }

    // The service `getchar`.
    #[tactic(auto, unfolding(crate::specs::Calls::getchar))]
    fn getchar(&mut self, count: u32) -> Result<Option<u8>, Stop32>
        ensures { Does result (state self.new) (getchar (state self.old) count) }
    {
        if count != 0 {
            return Err(BAD_CODE);
        }
        match self.input {
            [] => self.general[0] = u32::MAX,
            [byte, rest @ ..] => {
                self.general[0] = *byte as u32;
                self.input = rest;
            }
        }
        Ok(None)
    }

    /// Calls a service or the code at a label, which stands at this place.
    #[tactic(auto, unfolding(crate::specs::Calls::called_by_name))]
    pub(crate) fn call_by_name(
        &mut self,
        count: u32,
        target: &Option<Name>,
        place: usize,
    ) -> Result<Option<u8>, Stop32>
        requires { place ≡ target_of self.old.program.items.now target.now }
        ensures { Does result (state self.new) (called_by_name (state self.old) count target.now) }
    {
        let Some(name) = target else {
            return Err(BAD_CODE);
        };
        if name.as_slice() == b"_putchar".as_slice() {
            return self.putchar(count);
        }
        if name.as_slice() == b"_getchar".as_slice() {
            return self.getchar(count);
        }
        self.call(count, place)?;
        Ok(None)
    }
}
