// What is wrong where a kind of fault is told, and the way out of it: the words of docs/faults.md.
use gg_base::NoMemory;
use std::alloc::AllocError;

/// The name of a kind of fault, why it is one, and the way out.
pub type Advice = (&'static str, &'static str, &'static str);

/// The kinds of faults of a C source.
pub static SOURCES: [Advice; 17] = [
    ("BadByte", "no token begins with the byte", "take it out"),
    (
        "BadNumber",
        "a number is decimal up to 2147483647, octal, or hexadecimal up to `0xffffffff`, without a suffix",
        "write a larger one in hexadecimal: `0x80000000`",
    ),
    ("LongName", "names have at most 63 bytes", "shorten it"),
    (
        "BadEscape",
        "the backslash begins no escape of the subset",
        "one of `n t r a b f v \\ ' \"`, octal, `\\x` with one or two digits",
    ),
    (
        "BadChar",
        "a character constant holds one element",
        "two constants, or a string",
    ),
    (
        "Unclosed",
        "the text ends inside a comment or a literal",
        "close it",
    ),
    (
        "NotHere",
        "no program begins with the tokens up to this one",
        "look at this token and the one before",
    ),
    (
        "TooDeep",
        "brackets, statements and operators open more than 200 levels",
        "a local for a part of it",
    ),
    (
        "UnknownName",
        "no declaration is in scope, or a called function has no definition",
        "declare or define it",
    ),
    (
        "Twice",
        "the name is declared in this scope already",
        "another name",
    ),
    (
        "BadCall",
        "the number of arguments differs, or the name is no function",
        "as many arguments as the function has parameters",
    ),
    ("BadJump", "no loop is round it", "`return`, or a loop"),
    (
        "BadConst",
        "a constant is wanted, for a length one from 1 to 1,048,576",
        "a constant expression",
    ),
    (
        "BadInit",
        "a missing length, too many elements, a form that doesn't fit",
        "a length, or a list that fits",
    ),
    (
        "BadType",
        "the operands are in no row of the operator's table: a number but 0 is no pointer",
        "a cast, or another operator",
    ),
    (
        "DataFull",
        "objects end past 1,048,576 bytes, or the memory locals of a function take more than 262,144",
        "smaller objects; for a large local array, `static` in front of it",
    ),
    (
        "NoMain",
        "there is no `int main()`",
        "write it: it has the result `int` and no parameter",
    ),
];

/// What a source may still be refused for where it is compiled.
pub static FRAMES: [Advice; 1] = [(
    "frame words",
    "1,024 words are too few: a variable takes one, a node of the largest expression three",
    "static variables, shorter expressions",
)];

/// The faults of an assembly text.
pub static TEXTS: [Advice; 7] = [
    (
        "Cut",
        "each line ends with a line feed, and there is a line `.text`",
        "end it",
    ),
    (
        "Word",
        "no directive or mnemonic is called so",
        "one that docs/assembly.md has, as `pushl`",
    ),
    (
        "Operands",
        "its operands have another number or other forms",
        "those of docs/assembly.md: an immediate has a `$`, as `pushl $72`",
    ),
    (
        "twice",
        "a label stands once, and is no service's name",
        "another name",
    ),
    (
        "undefined",
        "nothing of the text has the name for this use",
        "define it",
    ),
    ("no _main", "a run begins at `_main`", "name it so"),
    ("too large", "the data area ends at 1,048,576 bytes", "less"),
];

/// What bytes are refused for that are no image.
pub static IMAGES: [Advice; 1] = [(
    "no image",
    "the file is no code's image: a code has one, and an image one spelling",
    "`ggvax image A` writes the image of a text",
)];

/// The kinds of faults of a description's lines.
pub static DESCRIPTIONS: [Advice; 19] = [
    (
        "BadEach",
        "the letters stand in the order `b w l`, and a `rule` line must follow",
        "the letters in this order, and a rule",
    ),
    (
        "BadWord",
        "the line has none of the forms that may stand here",
        "a form of docs/description-format.md, which has them in order",
    ),
    (
        "Limit",
        "there are at most 64 classes and 1,000 rules, and in a rule 16 symbols, 4 `if` lines and 8 `do` lines",
        "two rules with a class between them",
    ),
    ("Twice", "the class is declared already", "another name"),
    (
        "UnknownClass",
        "the left side is no declared class",
        "declare it",
    ),
    (
        "UnknownToken",
        "the symbol is no token of trees and no class",
        "a token of docs/trees.md, as `Plus`, or declare the class",
    ),
    (
        "NotATree",
        "the symbols are no tree: each token has its number of kids",
        "as many kids, as in `Plus rv rv`",
    ),
    (
        "WrongSort",
        "a kid isn't of the sort that is wanted, as a byte where a longword is wanted",
        "a conversion, as `Sxb bv`, or another class",
    ),
    (
        "BadIf",
        "the restriction may not stand on these symbols",
        "two symbols of one size, as `if same 2 3`, a constant, or `Cbr`",
    ),
    (
        "BadHole",
        "the hole names nothing of the right side that can be written",
        "the number of such a symbol, as `%3`",
    ),
    (
        "BadGive",
        "the class may not give that",
        "a class of registers gives `fresh` or `reuse`, statements `nothing` or `scratch`, others an operand",
    ),
    (
        "MissingVersion",
        "the text has no line of a description",
        "`version 1`",
    ),
    ("MissingTarget", "the next line is wanted", "`target vax`"),
    ("MissingPool", "the next line is wanted", "`pool r0 r1`"),
    (
        "MissingStmt",
        "no class `stmt` of kind `Nothing` stands before the lines that save",
        "`class stmt Nothing`",
    ),
    (
        "MissingSpill",
        "seven lines that save are wanted",
        "write them",
    ),
    (
        "MissingReload",
        "the line that reloads is wanted",
        "`reload movl %1,%0`",
    ),
    (
        "MissingRule",
        "a description has a rule at least",
        "write one",
    ),
    (
        "MissingGive",
        "each rule ends by what it gives",
        "`give` and what the class may give, as `give scratch`",
    ),
];

/// What the tables of a description are refused for.
pub static TABLES: [Advice; 4] = [
    (
        "item sets",
        "the rules share too few item sets",
        "fewer rules, or rules that share their beginnings",
    ),
    (
        "summaries",
        "there are too many ways in which symbols may replace a subtree",
        "fewer classes that may stand for one another, or fewer restricted rules",
    ),
    (
        "blocks",
        "no rule goes on where the parse stands: none takes the token there, or a longer pattern was preferred whose rest doesn't come",
        "a rule for the token, or the longer pattern's general twin",
    ),
    (
        "loops",
        "classes become each other by turns where a longer pattern stands open and its general or unrestricted twin is missing",
        "that twin: the pattern with a class for its special part, or without its `if` lines",
    ),
];

/// What a rule is refused for, but for templates with `NotInstr`.
pub static RULES: [Advice; 4] = [
    (
        "registers",
        "the rule needs a register for each that stands among its symbols, and one for what it takes",
        "more registers in the pool, or a rule that takes less",
    ),
    (
        "WrongSize",
        "a value, a place, a local or an argument is read or written at another size than its own",
        "the instruction of its size, as `movw`",
    ),
    (
        "Order",
        "a line that divides isn't the first, or under `give reuse` an operand is read behind the first write of `%0`",
        "divide first; one line, or `give fresh`",
    ),
    (
        "unshown",
        "the template does something else than the pattern says",
        "exchange operands, or take another instruction: both must be one effect",
    ),
];

/// The nine causes of `NotInstr`.
pub static NOT_INSTR: [Advice; 9] = [
    (
        "mnemonic",
        "no instruction is called so",
        "an instruction of docs/assembly.md",
    ),
    (
        "operand",
        "an operand may not be spelled so: its symbol's class allows other forms",
        "a form of the table of operands in docs/templates.md",
    ),
    (
        "dropped",
        "memory is read and dropped: code could break where the tree does not",
        "leave the line out, or use what it reads",
    ),
    (
        "unwritten",
        "`%0` is read before it is written",
        "a line in front that writes `%0`",
    ),
    (
        "writes",
        "a rule that is no statement's writes something else than `%0`",
        "write `%0`, or make it a rule of `stmt`",
    ),
    (
        "behind",
        "a line stands behind the one that ends the statement, or between `movl X,r0` and `ret`",
        "put it in front",
    ),
    (
        "branch",
        "a branch stands neither directly behind a comparison nor, under `if signed`, behind `bitl`",
        "the comparison in front of it",
    ),
    (
        "no value",
        "`%0` is left without a value",
        "a line that writes `%0`",
    ),
    (
        "nothing",
        "a statement's rule does nothing",
        "the line that does it",
    ),
];

/// The row of a kind.
pub fn advice_of(rows: &[Advice], kind: &str) -> Option<Advice> {
    rows.iter().find(|row| row.0 == kind).copied()
}

/// Adds why, and the way out.
pub fn put_words(told: &mut String, advice: Advice) -> Result<(), AllocError> {
    writeln!(told, "  why: {}", advice.1)?;
    writeln!(told, "  way out: {}", advice.2)
}

/// Adds what the rows say of a kind; nothing of one that they don't have.
pub fn put_advice(told: &mut String, rows: &[Advice], kind: &str) -> Result<(), NoMemory> {
    if let Some(advice) = advice_of(rows, kind) {
        put_words(told, advice)?;
    }
    Ok(())
}
