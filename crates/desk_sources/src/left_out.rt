// The words of C that the language leaves out, with the way round each.
use crate::pieces::{Piece, bytes_of};
use std::str;

/// What is left out, as it is told, and the way round it.
pub type LeftOut = (&'static str, &'static str);

const FIELDS: &str = "an array for each field, with one index for all of them";

const CHOICES: &str = "`if` and `else if`";

const NUMBERS: &str = "the number itself; where it is no array's length, a global variable";

const WITHOUT: &str = "leave the word out";

const WHOLE: &str = "whole numbers, which may count thousandths";

const PRINTING: &str = "functions to copy: examples/printing.c";

const GIVING: &str = "a global array, and a variable that counts what is given away";

const TYPES: &str = "`int`, `short`, `char`, `unsigned short` or `unsigned char`";

// Keywords, which are left out wherever they stand.
static KEYWORDS: [LeftOut; 17] = [
    ("struct", FIELDS),
    ("union", FIELDS),
    ("switch", CHOICES),
    ("case", CHOICES),
    ("default", CHOICES),
    ("enum", NUMBERS),
    ("const", NUMBERS),
    ("typedef", "the type itself"),
    ("goto", "a loop, and a variable that says how it goes on"),
    ("long", "`int`, which has 32 bits"),
    ("signed", WITHOUT),
    ("float", WHOLE),
    ("double", WHOLE),
    (
        "extern",
        "leave the line out: one source is the whole program",
    ),
    ("auto", WITHOUT),
    ("volatile", WITHOUT),
    ("inline", WITHOUT),
];

// Names of the libraries of C, which a source may have for itself.
static LIBRARY: [LeftOut; 16] = [
    ("printf", PRINTING),
    ("puts", PRINTING),
    ("fputs", PRINTING),
    ("fprintf", PRINTING),
    ("scanf", "`getchar`"),
    ("malloc", GIVING),
    ("calloc", GIVING),
    ("free", GIVING),
    ("exit", "`return` from `main`"),
    ("NULL", "`0`"),
    ("EOF", "`-1`"),
    ("bool", "`int`"),
    ("size_t", "`int`"),
    ("FILE", "`getchar` and `putchar` alone"),
    ("uint32_t", TYPES),
    ("int32_t", TYPES),
];

/// Other things of C, found by several words.
static POINTER: LeftOut = (
    "a pointer to a function",
    "a number, and an `if` that calls",
);

static LOOP: LeftOut = (
    "a declaration in `for (`",
    "declarations stand in blocks: `{int i; for (i = 0; ..) ..}`",
);

static UNSIGNED: LeftOut = (
    "`unsigned int`",
    "`int` wraps at 32 bits; `(a ^ 0x80000000) < (b ^ 0x80000000)` compares without a sign",
);

static DIRECTIVE: LeftOut = (
    "a line with `#`",
    "`putchar` and `getchar` are there without `#include`; for `#define` write the number itself",
);

static WORDS: LeftOut = (
    "a parameter of `main`",
    "`int main()`, which reads its input by `getchar`",
);

static FIELD: LeftOut = ("a field", FIELDS);

static FRACTION: LeftOut = ("a number with a point", WHOLE);

static SUFFIX: LeftOut = (
    "a suffix of a number",
    "none: there is one type of constants",
);

static DIMENSIONS: LeftOut = (
    "a second dimension",
    "one dimension: `int a[12]`, and `a[4 * i + j]`",
);

/// A source with its words and marks.
#[derive(Clone, Copy)]
pub struct Words<'a> {
    pub source: &'a [u8],
    pub pieces: &'a [Piece],
}

impl<'a> Words<'a> {
    /// The word or mark with this number; empty behind the last.
    pub fn at(self, number: usize) -> &'a str {
        match self.pieces.get(number) {
            Some(piece) => str::from_utf8(bytes_of(self.source, *piece)).unwrap_or("?"),
            None => "",
        }
    }

    // So many words or marks behind one.
    fn behind(self, number: usize, more: usize) -> &'a str {
        self.at(number.saturating_add(more))
    }

    // A function's pointer: `(*f)(`.
    fn is_pointer(self, number: usize) -> bool {
        self.at(number) == "("
            && self.behind(number, 1) == "*"
            && self.behind(number, 3) == ")"
            && self.behind(number, 4) == "("
    }

    // A `main` with parameters.
    fn has_parameters(self, number: usize) -> bool {
        self.at(number) == "main"
            && self.behind(number, 1) == "("
            && !matches!(self.behind(number, 2), ")" | "void")
    }

    fn is_declared(self, number: usize) -> bool {
        self.at(number) == "for"
            && self.behind(number, 1) == "("
            && matches!(
                self.behind(number, 2),
                "int" | "char" | "short" | "unsigned" | "register"
            )
    }

    /// What is left out and begins at this word or mark.
    pub fn left_out(self, number: usize) -> Option<LeftOut> {
        let word = self.at(number);
        if word == "#" {
            return Some(DIRECTIVE);
        }
        if word == "unsigned" && !matches!(self.behind(number, 1), "char" | "short") {
            return Some(UNSIGNED);
        }
        if self.is_declared(number) {
            return Some(LOOP);
        }
        if self.is_pointer(number) {
            return Some(POINTER);
        }
        if self.has_parameters(number) {
            return Some(WORDS);
        }
        named(&KEYWORDS, word)
    }

    /// What is left out where the first fault stands at this word or mark.
    pub fn left_out_at_fault(self, number: usize) -> Option<LeftOut> {
        let word = self.at(number);
        let before = match number.checked_sub(1) {
            Some(before) => self.at(before),
            None => "",
        };
        if word == "." || (before == "-" && word == ">") {
            return Some(if begins_with_digit(before) {
                FRACTION
            } else {
                FIELD
            });
        }
        if word == "[" && before == "]" {
            return Some(DIMENSIONS);
        }
        if begins_with_digit(word) && word.ends_with(['l', 'L', 'u', 'U']) {
            return Some(SUFFIX);
        }
        named(&LIBRARY, word).or(named(&LIBRARY, before))
    }
}

fn begins_with_digit(word: &str) -> bool {
    word.starts_with(|letter: char| letter.is_ascii_digit())
}

fn named(rows: &[LeftOut], word: &str) -> Option<LeftOut> {
    rows.iter().find(|row| row.0 == word).copied()
}
