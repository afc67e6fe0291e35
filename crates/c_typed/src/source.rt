// From the bytes of a source to its program.
ghost use Rattle.std.specs.Prelude.{◌≡◌, ◌≤◌, ◌⊎◌, length, List, IfOk, IfErr};
ghost use Rattle.gg_base.specs.declared.limits.TheConstants.{SOURCE_LIMIT};
ghost use Rattle.c_tokens.specs.declared.token.Spanned.{Spanned as ASpanned};
ghost use Rattle.c_tokens.specs.Grammar.{Tokens};
ghost use Rattle.c_typed_check.specs.c_program.specs.Programs.{AProgram};
ghost use Rattle.c_typed_check.specs.Views.{typed};
ghost use Rattle.gg_base.specs.declared.place.Place.{Place};
ghost use Rattle.c_typed.specs.declared.source.SourceKind.{SourceKind};
ghost use Rattle.c_typed.specs.Sources.{Reads, IsRefused, IsOnly, IsFaultAt, IsOnlyFault, place_at, kind_name};

use c_syntax::{SyntaxFault, parse};
use c_tokens::laws::tokens_are_ended;
use c_tokens::{TokenFault, TokenKind, place_of, tokens};
use c_typed_check::{Program, check};
use c_typed_words::source_has_tokens;
use c_types::{TypeFault, TypeKind};
use gg_base::Place;
use std::alloc::Global;
use std::fmt;

/// What is wrong with a source: with its tokens, its phrases or its types. Its `Display` is the kind's name.
#[derive(Clone, Copy, Debug, PartialEq, Eq)]
pub enum SourceKind {
    /// A fault of the tokens.
    Tokens(TokenKind),
    /// No program begins with the tokens up to this one.
    NotHere,
    /// Brackets, statements and operators open more than 200 levels.
    TooDeep,
    /// A fault of the types.
    Types(TypeKind),
}

impl SourceKind {
    fn name(self) -> &'static str
        ensures { result.now ≡ kind_name self }
    {
        match self {
            SourceKind::Tokens(TokenKind::BadByte) => "BadByte",
            SourceKind::Tokens(TokenKind::BadNumber) => "BadNumber",
            SourceKind::Tokens(TokenKind::LongName) => "LongName",
            SourceKind::Tokens(TokenKind::BadEscape) => "BadEscape",
            SourceKind::Tokens(TokenKind::BadChar) => "BadChar",
            SourceKind::Tokens(TokenKind::Unclosed) => "Unclosed",
            SourceKind::NotHere => "NotHere",
            SourceKind::TooDeep => "TooDeep",
            SourceKind::Types(TypeKind::UnknownName) => "UnknownName",
            SourceKind::Types(TypeKind::Twice) => "Twice",
            SourceKind::Types(TypeKind::BadCall) => "BadCall",
            SourceKind::Types(TypeKind::BadJump) => "BadJump",
            SourceKind::Types(TypeKind::BadConst) => "BadConst",
            SourceKind::Types(TypeKind::BadInit) => "BadInit",
            SourceKind::Types(TypeKind::BadType) => "BadType",
            SourceKind::Types(TypeKind::DataFull) => "DataFull",
            SourceKind::Types(TypeKind::NoMain) => "NoMain",
        }
    }
}

impl fmt::Display for SourceKind {
    ghost use Rattle.std.specs.Prelude.{Some};

    ghost output = { λ kind. Some (kind_name kind) };

    fn fmt<W: fmt::Write>(&self, f: &mut fmt::Formatter<W>) -> fmt::Result {
        f.write_str(self.name())
    }
}

/// Why bytes are no source.
#[derive(Clone, Copy, Debug, PartialEq, Eq)]
pub enum SourceFault {
    /// Memory ran out.
    NoMemory,
    /// The first fault, of the tokens, else of the phrases, else of the types: its line and column, and its kind.
    At { place: Place, kind: SourceKind },
}

// The place of an offset, and that of the end for every larger one.
fn place_at(bytes: &[u8], offset: u32) -> Place
    requires { length bytes.now ≤ SOURCE_LIMIT }
    ensures { result ≡ place_at bytes.now offset }
{
    if offset as usize > bytes.len() {
        place_of(bytes, bytes.len() as u32)
    } else {
        place_of(bytes, offset)
    }
}

/// The program of a source of at most `SOURCE_LIMIT` bytes, or its first fault: of its tokens, else of its phrases, else of
/// its types.
pub fn read_source(alloc: Global, bytes: &[u8]) -> Result<Program, SourceFault>
    requires { length bytes.now ≤ SOURCE_LIMIT }
    ensures found { IfOk result (λ p. Reads bytes.now (typed p)) }
    ensures only { (p : AProgram) → Reads bytes.now p → IsOnly result p }
    ensures refused { IfErr result (λ fault. IsRefused bytes.now fault) }
    ensures first { (place : Place) (kind : SourceKind) → IsFaultAt bytes.now place kind → IsOnlyFault result place kind }
{
    tokens_are_ended();
    source_has_tokens();
    let list = match tokens(alloc, bytes) {
        Ok(list) => list,
        Err(TokenFault::NoMemory) => return Err(SourceFault::NoMemory),
        Err(TokenFault::At { place, kind }) => return Err(SourceFault::At {
            place: place_at(bytes, place),
            kind: SourceKind::Tokens(kind),
        }),
    };
    let ast = match parse(alloc, &list) {
        Ok(ast) => ast,
        Err(SyntaxFault::NoMemory) => return Err(SourceFault::NoMemory),
        Err(SyntaxFault::NotHere(offset)) => return Err(SourceFault::At {
            place: place_at(bytes, offset),
            kind: SourceKind::NotHere,
        }),
        Err(SyntaxFault::TooDeep(offset)) => return Err(SourceFault::At {
            place: place_at(bytes, offset),
            kind: SourceKind::TooDeep,
        }),
    };
    match check(alloc, &ast) {
        Ok(program) => Ok(program),
        Err(TypeFault::NoMemory) => Err(SourceFault::NoMemory),
        Err(TypeFault::At { place, kind }) => Err(SourceFault::At {
            place: place_at(bytes, place),
            kind: SourceKind::Types(kind),
        }),
    }
}
