// The keywords.
ghost use Rattle.std.specs.Prelude.{◌≡◌};
ghost use Rattle.c_tokens.specs.Words.{key_text};
ghost use Rattle.c_tokens.specs.Words.{key_among, key_of};

use std::fmt;

/// A keyword of the language. Those behind `Sizeof` stand in no phrase.
#[derive(Clone, Copy, Debug, PartialEq, Eq)]
pub enum Key {
    Int,
    Char,
    Short,
    Unsigned,
    Void,
    Static,
    Register,
    If,
    Else,
    While,
    Do,
    For,
    Break,
    Continue,
    Return,
    Sizeof,
    Auto,
    Case,
    Const,
    Default,
    Double,
    Enum,
    Extern,
    Float,
    Goto,
    Long,
    Signed,
    Struct,
    Switch,
    Typedef,
    Union,
    Volatile,
}

impl Key {
    /// As it is written.
    pub fn spelling(self) -> &'static str
        ensures { result.now ≡ key_text self }
    {
        match self {
            Key::Int => "int",
            Key::Char => "char",
            Key::Short => "short",
            Key::Unsigned => "unsigned",
            Key::Void => "void",
            Key::Static => "static",
            Key::Register => "register",
            Key::If => "if",
            Key::Else => "else",
            Key::While => "while",
            Key::Do => "do",
            Key::For => "for",
            Key::Break => "break",
            Key::Continue => "continue",
            Key::Return => "return",
            Key::Sizeof => "sizeof",
            Key::Auto => "auto",
            Key::Case => "case",
            Key::Const => "const",
            Key::Default => "default",
            Key::Double => "double",
            Key::Enum => "enum",
            Key::Extern => "extern",
            Key::Float => "float",
            Key::Goto => "goto",
            Key::Long => "long",
            Key::Signed => "signed",
            Key::Struct => "struct",
            Key::Switch => "switch",
            Key::Typedef => "typedef",
            Key::Union => "union",
            Key::Volatile => "volatile",
        }
    }
}

impl fmt::Display for Key {
    ghost use Rattle.std.specs.Prelude.{Some};

    ghost output = { λ x. Some (key_text x) };

    fn fmt<W: fmt::Write>(&self, f: &mut fmt::Formatter<W>) -> fmt::Result {
        f.write_str(self.spelling())
    }
}

/// Each keyword once.
pub const KEYS: [Key; 32] = [
    Key::Int,
    Key::Char,
    Key::Short,
    Key::Unsigned,
    Key::Void,
    Key::Static,
    Key::Register,
    Key::If,
    Key::Else,
    Key::While,
    Key::Do,
    Key::For,
    Key::Break,
    Key::Continue,
    Key::Return,
    Key::Sizeof,
    Key::Auto,
    Key::Case,
    Key::Const,
    Key::Default,
    Key::Double,
    Key::Enum,
    Key::Extern,
    Key::Float,
    Key::Goto,
    Key::Long,
    Key::Signed,
    Key::Struct,
    Key::Switch,
    Key::Typedef,
    Key::Union,
    Key::Volatile,
];

fn key_among(keys: &[Key], word: &[u8]) -> Option<Key>
    ensures { result ≡ key_among keys.now word.now }
{
    keys.iter()
        .find(|key| word == key.spelling().as_bytes())
        .copied()
}

/// The keyword that the word is.
#[tactic(auto, unfolding(crate::specs::Words::key_of))]
pub fn key_of(word: &[u8]) -> Option<Key>
    ensures { result ≡ key_of word.now }
{
    key_among(&KEYS, word)
}
