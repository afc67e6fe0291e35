// One live frame.
ghost use Rattle.std.specs.Prelude.{◌≡◌};
ghost use Rattle.vax_machine_live.specs.Control.{overlaps};

/// The frame of a call that has not returned. Its control words take their room in the stack, from `fp` up to `top`; what they hold is kept
/// here, and no instruction may touch that room.
#[derive(Clone, Copy)]
pub struct Frame {
    /// The address of the lowest control word.
    pub fp: u32,
    /// The address behind the highest one: that of the number of arguments, rounded down to a multiple of 4.
    pub top: u32,
    /// The address of the number of arguments.
    pub ap: u32,
    /// Bit N is there where rN was saved.
    pub mask: u16,
    /// All registers as they were at the call: r0 to r11, ap, fp, sp.
    pub saved: [u32; 15],
    /// The place of the item to go on at; None where the `ret` ends the run.
    pub back: Option<usize>,
}

impl Frame {
    /// Whether the byte at an address is one of its control words.
    pub fn holds(&self, address: u32) -> bool
        ensures { result ≡ overlaps self.now address 1 }
    {
        self.fp <= address && address < self.top
    }
}
