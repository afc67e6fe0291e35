// Operators and type words.
ghost use Rattle.std.specs.Prelude.{◌≡◌};
ghost use Rattle.c_phrases.specs.Operators.{level_of};

/// A binary operator.
#[derive(Clone, Copy, Debug, PartialEq, Eq)]
pub enum BinaryOperator {
    OrOr,
    AndAnd,
    Or,
    Xor,
    And,
    Equal,
    NotEqual,
    Less,
    LessEqual,
    Greater,
    GreaterEqual,
    ShiftLeft,
    ShiftRight,
    Add,
    Subtract,
    Multiply,
    Divide,
    Remainder,
}

impl BinaryOperator {
    /// Its level, from 3 for `||` to 12 for `*`, `/` and `%`.
    pub fn level(self) -> u32
        ensures { result ≡ level_of self }
    {
        match self {
            BinaryOperator::OrOr => 3,
            BinaryOperator::AndAnd => 4,
            BinaryOperator::Or => 5,
            BinaryOperator::Xor => 6,
            BinaryOperator::And => 7,
            BinaryOperator::Equal | BinaryOperator::NotEqual => 8,
            BinaryOperator::Less
            | BinaryOperator::LessEqual
            | BinaryOperator::Greater
            | BinaryOperator::GreaterEqual => 9,
            BinaryOperator::ShiftLeft | BinaryOperator::ShiftRight => 10,
            BinaryOperator::Add | BinaryOperator::Subtract => 11,
            BinaryOperator::Multiply | BinaryOperator::Divide | BinaryOperator::Remainder => 12,
        }
    }
}

/// An operator in front of its operand.
#[derive(Clone, Copy, Debug, PartialEq, Eq)]
pub enum PrefixOperator {
    Plus,
    Minus,
    Complement,
    Not,
    Indirection,
    Address,
}

/// `++` or `--`.
#[derive(Clone, Copy, Debug, PartialEq, Eq)]
pub enum StepOperator {
    Increment,
    Decrement,
}

/// `=`, or one of the ten compound marks.
#[derive(Clone, Copy, Debug, PartialEq, Eq)]
pub enum AssignOperator {
    Assign,
    Add,
    Subtract,
    Multiply,
    Divide,
    Remainder,
    And,
    Xor,
    Or,
    ShiftLeft,
    ShiftRight,
}

/// The words of a type, each with its offset.
#[derive(Clone, Copy, Debug, PartialEq, Eq)]
pub enum Spec {
    Int {
        at: u32,
    },
    Char {
        at: u32,
    },
    Short {
        at: u32,
        int_at: Option<u32>,
    },
    UnsignedChar {
        at: u32,
        char_at: u32,
    },
    UnsignedShort {
        at: u32,
        short_at: u32,
        int_at: Option<u32>,
    },
    Void {
        at: u32,
    },
}

/// The storage word of a local declaration.
#[derive(Clone, Copy, Debug, PartialEq, Eq)]
pub enum Storage {
    Automatic,
    Static { at: u32 },
    Register { at: u32 },
}
