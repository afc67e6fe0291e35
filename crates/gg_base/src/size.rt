// Sizes of operands and objects.
ghost use Rattle.std.specs.Prelude.{◌≡◌};
ghost use Rattle.gg_base.specs.Sizes.{bytes_of};

/// The size of an operand: 1, 2 or 4 bytes.
#[derive(Clone, Copy, Debug, PartialEq, Eq)]
pub enum Size {
    Byte,
    Word,
    Long,
}

impl Size {
    /// How many bytes an operand of this size takes.
    pub fn bytes(self) -> u32
        ensures { result ≡ bytes_of self }
    {
        match self {
            Size::Byte => 1,
            Size::Word => 2,
            Size::Long => 4,
        }
    }
}
