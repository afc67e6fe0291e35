// The operators of terms.

ghost use Rattle.std.specs.Prelude.{◌≡◌, ◌%◌, ◌^◌};
ghost use Rattle.std.specs.Option.{option_map};
ghost use Rattle.term_core.specs.Operators.{unary, binary, unary_rank, binary_rank, unary_name, binary_name};

use gg_base::w32;

/// An operator on one longword: negative, complement, and the extensions of the low byte and word, with zeros or with their sign.
#[derive(Clone, Copy, Debug, PartialEq, Eq)]
pub enum UnaryOp {
    Neg,
    Com,
    Zx8,
    Zx16,
    Sx8,
    Sx16,
}

/// An operator on two longwords; `Ash` shifts its second part by its first.
#[derive(Clone, Copy, Debug, PartialEq, Eq)]
pub enum BinaryOp {
    Add,
    Sub,
    Mul,
    Div,
    And,
    Or,
    Xor,
    Ash,
}

impl UnaryOp {
    /// Its place among the operators, in the order of terms.
    pub fn rank(self) -> u8
        ensures { result ≡ unary_rank self }
    {
        match self {
            UnaryOp::Neg => 0,
            UnaryOp::Com => 1,
            UnaryOp::Zx8 => 2,
            UnaryOp::Zx16 => 3,
            UnaryOp::Sx8 => 4,
            UnaryOp::Sx16 => 5,
        }
    }

    /// Its name in the text of a term.
    pub fn name(self) -> &'static str
        ensures { result.now ≡ unary_name self }
    {
        match self {
            UnaryOp::Neg => "Neg",
            UnaryOp::Com => "Com",
            UnaryOp::Zx8 => "Zx8",
            UnaryOp::Zx16 => "Zx16",
            UnaryOp::Sx8 => "Sx8",
            UnaryOp::Sx16 => "Sx16",
        }
    }

    /// What it makes of a constant.
    pub fn apply(self, n: u32) -> u32
        ensures { result ≡ unary self (n % 2 ^ 32) }
    {
        match self {
            UnaryOp::Neg => w32::neg(n),
            UnaryOp::Com => w32::com(n),
            UnaryOp::Zx8 => w32::zext8(n),
            UnaryOp::Zx16 => w32::zext16(n),
            UnaryOp::Sx8 => w32::sext8(n),
            UnaryOp::Sx16 => w32::sext16(n),
        }
    }
}

impl BinaryOp {
    /// Its place among the operators, in the order of terms.
    pub fn rank(self) -> u8
        ensures { result ≡ binary_rank self }
    {
        match self {
            BinaryOp::Add => 0,
            BinaryOp::Sub => 1,
            BinaryOp::Mul => 2,
            BinaryOp::Div => 3,
            BinaryOp::And => 4,
            BinaryOp::Or => 5,
            BinaryOp::Xor => 6,
            BinaryOp::Ash => 7,
        }
    }

    /// Its name in the text of a term.
    pub fn name(self) -> &'static str
        ensures { result.now ≡ binary_name self }
    {
        match self {
            BinaryOp::Add => "Add",
            BinaryOp::Sub => "Sub",
            BinaryOp::Mul => "Mul",
            BinaryOp::Div => "Div",
            BinaryOp::And => "And",
            BinaryOp::Or => "Or",
            BinaryOp::Xor => "Xor",
            BinaryOp::Ash => "Ash",
        }
    }

    /// What it makes of two constants: 0 for a quotient by 0.
    pub fn apply(self, m: u32, n: u32) -> u32
        ensures { result ≡ binary self (m % 2 ^ 32) (n % 2 ^ 32) }
    {
        match self {
            BinaryOp::Add => w32::add(m, n),
            BinaryOp::Sub => w32::sub(m, n),
            BinaryOp::Mul => w32::mul(m, n),
            BinaryOp::Div => w32::div(m, n).unwrap_or(0),
            BinaryOp::And => w32::and(m, n),
            BinaryOp::Or => w32::or(m, n),
            BinaryOp::Xor => w32::xor(m, n),
            BinaryOp::Ash => w32::ash(m, n),
        }
    }
}
