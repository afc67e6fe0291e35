// The marks: operators and signs.
ghost use Rattle.std.specs.Prelude.{◌≡◌, ◌≤◌, length, IfSome};
ghost use Rattle.c_tokens.specs.Marks.{mark_text};
ghost use Rattle.c_tokens.specs.Marks.{mark_among, mark_of};

use std::fmt;

/// An operator or a sign.
#[derive(Clone, Copy, Debug, PartialEq, Eq)]
pub enum Mark {
    ShiftLeftAssign,
    ShiftRightAssign,
    AddAssign,
    SubtractAssign,
    MultiplyAssign,
    DivideAssign,
    RemainderAssign,
    AndAssign,
    XorAssign,
    OrAssign,
    OrOr,
    AndAnd,
    Equal,
    NotEqual,
    LessEqual,
    GreaterEqual,
    ShiftLeft,
    ShiftRight,
    Increment,
    Decrement,
    OpenBrace,
    CloseBrace,
    OpenParenthesis,
    CloseParenthesis,
    OpenBracket,
    CloseBracket,
    Semicolon,
    Comma,
    Question,
    Colon,
    Assign,
    Or,
    Xor,
    And,
    Less,
    Greater,
    Plus,
    Minus,
    Star,
    Slash,
    Percent,
    Tilde,
    Exclamation,
}

impl Mark {
    /// As it is written.
    pub fn spelling(self) -> &'static str
        ensures { result.now ≡ mark_text self }
    {
        match self {
            Mark::ShiftLeftAssign => "<<=",
            Mark::ShiftRightAssign => ">>=",
            Mark::AddAssign => "+=",
            Mark::SubtractAssign => "-=",
            Mark::MultiplyAssign => "*=",
            Mark::DivideAssign => "/=",
            Mark::RemainderAssign => "%=",
            Mark::AndAssign => "&=",
            Mark::XorAssign => "^=",
            Mark::OrAssign => "|=",
            Mark::OrOr => "||",
            Mark::AndAnd => "&&",
            Mark::Equal => "==",
            Mark::NotEqual => "!=",
            Mark::LessEqual => "<=",
            Mark::GreaterEqual => ">=",
            Mark::ShiftLeft => "<<",
            Mark::ShiftRight => ">>",
            Mark::Increment => "++",
            Mark::Decrement => "--",
            Mark::OpenBrace => "{",
            Mark::CloseBrace => "}",
            Mark::OpenParenthesis => "(",
            Mark::CloseParenthesis => ")",
            Mark::OpenBracket => "[",
            Mark::CloseBracket => "]",
            Mark::Semicolon => ";",
            Mark::Comma => ",",
            Mark::Question => "?",
            Mark::Colon => ":",
            Mark::Assign => "=",
            Mark::Or => "|",
            Mark::Xor => "^",
            Mark::And => "&",
            Mark::Less => "<",
            Mark::Greater => ">",
            Mark::Plus => "+",
            Mark::Minus => "-",
            Mark::Star => "*",
            Mark::Slash => "/",
            Mark::Percent => "%",
            Mark::Tilde => "~",
            Mark::Exclamation => "!",
        }
    }
}

impl fmt::Display for Mark {
    ghost use Rattle.std.specs.Prelude.{Some};

    ghost output = { λ x. Some (mark_text x) };

    fn fmt<W: fmt::Write>(&self, f: &mut fmt::Formatter<W>) -> fmt::Result {
        f.write_str(self.spelling())
    }
}

/// Each mark once, a longer one before a shorter.
pub const MARKS: [Mark; 43] = [
    Mark::ShiftLeftAssign,
    Mark::ShiftRightAssign,
    Mark::AddAssign,
    Mark::SubtractAssign,
    Mark::MultiplyAssign,
    Mark::DivideAssign,
    Mark::RemainderAssign,
    Mark::AndAssign,
    Mark::XorAssign,
    Mark::OrAssign,
    Mark::OrOr,
    Mark::AndAnd,
    Mark::Equal,
    Mark::NotEqual,
    Mark::LessEqual,
    Mark::GreaterEqual,
    Mark::ShiftLeft,
    Mark::ShiftRight,
    Mark::Increment,
    Mark::Decrement,
    Mark::OpenBrace,
    Mark::CloseBrace,
    Mark::OpenParenthesis,
    Mark::CloseParenthesis,
    Mark::OpenBracket,
    Mark::CloseBracket,
    Mark::Semicolon,
    Mark::Comma,
    Mark::Question,
    Mark::Colon,
    Mark::Assign,
    Mark::Or,
    Mark::Xor,
    Mark::And,
    Mark::Less,
    Mark::Greater,
    Mark::Plus,
    Mark::Minus,
    Mark::Star,
    Mark::Slash,
    Mark::Percent,
    Mark::Tilde,
    Mark::Exclamation,
];

fn mark_among(marks: &[Mark], text: &[u8]) -> Option<Mark>
    ensures is { result ≡ mark_among marks.now text.now }
    ensures within { IfSome result (λ m. length (mark_text m) ≤ length text.now) }
{
    marks
        .iter()
        .find(|mark| text.starts_with(mark.spelling().as_bytes()))
        .copied()
}

/// The longest mark with which the text begins.
#[tactic(auto, unfolding(crate::specs::Marks::mark_of))]
pub fn mark_of(text: &[u8]) -> Option<Mark>
    ensures is { result ≡ mark_of text.now }
    ensures within { IfSome result (λ m. length (mark_text m) ≤ length text.now) }
{
    mark_among(&MARKS, text)
}
