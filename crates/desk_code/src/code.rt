// The trees of a source, the rules that they take, and their code.
use crate::places::{Parts, parts_of};
use crate::rows::{Cells, cell_at, fill_up, push_text};
use crate::units::{Unit, start_of, units_of};
use c_typed::Program;
use desk_page::put_columns;
use desk_rule_lines::{line_of, put_rule};
use desk_sources::left_out::Words;
use desk_sources::pieces::pieces;
use desk_taking::program::without_end;
use desk_taking::{Ending, Selection, Taken, select_tree};
use gg_base::NoMemory;
use ggdesk_sources::notation::put_program;
use lr_tables::Tables;
use std::alloc::Global;
use std::str;
use tree_core::{TreeFn, TreeItem, TreeProgram};
use vax_core::{AreaItems, Code, CodeItem, CodeItems, Instr};
use vax_writer::write_code;

// The widths of the columns: the source, a tree, the rules with their lines in the description, and the code.
const SOURCE: usize = 34;

const TREE: usize = 34;

const RULE: usize = 36;

const CODE: usize = 30;

static WIDTHS: [usize; 4] = [SOURCE, TREE, RULE, CODE];

// The lines in front of the instructions of a text.
const HEAD: usize = 2;

/// A description's tables and the lines of its rules.
#[derive(Drop)]
pub struct Tabled<'a> {
    pub tables: &'a Tables,
    pub lines: &'a [u32],
}

// The lines of instructions.
fn code_lines(alloc: Global, code: Vec<Instr>) -> Result<Cells, NoMemory> {
    let mut items = Vec::new(alloc);
    items.extend(code.into_iter().map(CodeItem::Instr))?;
    let code = Code {
        area: AreaItems::from_vec(Vec::new(alloc)),
        items: CodeItems::from_vec(items),
    };
    let mut lines = Vec::new(alloc);
    if !code.valid() {
        return Ok(lines);
    }
    let mut text = String::new(alloc);
    write_code(&code, &mut text)?;
    for line in text.lines().skip(HEAD) {
        let shown = line
            .trim_start()
            .chars()
            .map(|letter| if letter == '\t' { ' ' } else { letter })
            .collect(alloc)?;
        lines.push(shown)?;
    }
    Ok(lines)
}

// Trees, the rules that they take and their code, in rows.
#[derive(Drop)]
struct Rows {
    trees: Cells,
    rules: Cells,
    code: Cells,
}

impl Rows {
    fn new(alloc: Global) -> Self {
        Rows {
            trees: Vec::new(alloc),
            rules: Vec::new(alloc),
            code: Vec::new(alloc),
        }
    }

    // Makes the three columns equally long.
    fn even(&mut self, alloc: Global) -> Result<(), NoMemory> {
        let count = self.trees.len().max(self.rules.len()).max(self.code.len());
        fill_up(alloc, &mut self.trees, count)?;
        fill_up(alloc, &mut self.rules, count)?;
        fill_up(alloc, &mut self.code, count)
    }

    // A rule that is taken, with its line, and the lines of its code beside it.
    fn push_rule(
        &mut self,
        alloc: Global,
        tabled: &Tabled,
        taken: Taken,
        lines: &[String],
    ) -> Result<(), NoMemory> {
        let number = taken.rule as usize;
        let mut text = format!(in alloc; "{} ", line_of(tabled.lines, number))?;
        put_rule(&mut text, tabled.tables.description(), number)?;
        let count = self.rules.len();
        push_text(alloc, &mut self.rules, &text, RULE)?;
        fill_up(alloc, &mut self.code, count)?;
        for at in taken.first..taken.behind {
            push_text(alloc, &mut self.code, cell_at(lines, at), CODE)?;
        }
        let count = self.rules.len().max(self.code.len());
        fill_up(alloc, &mut self.rules, count)?;
        fill_up(alloc, &mut self.code, count)
    }

    // A tree, which is so written, with the rules that it takes and its code.
    fn push_tree(
        &mut self,
        alloc: Global,
        tabled: &Tabled,
        line: &str,
        selection: Selection,
    ) -> Result<(), NoMemory> {
        let Selection {
            taken,
            code,
            ending,
        } = selection;
        push_text(alloc, &mut self.trees, line, TREE)?;
        let lines = code_lines(alloc, code)?;
        for one in &taken {
            self.push_rule(alloc, tabled, *one, &lines)?;
        }
        if ending != Ending::Done {
            push_text(alloc, &mut self.rules, ending_name(ending), RULE)?;
        }
        self.even(alloc)
    }

    // An item, which is so written.
    fn push_item(
        &mut self,
        alloc: Global,
        tabled: &Tabled,
        program: &TreeProgram,
        f: &TreeFn,
        item: &TreeItem,
        line: &str,
    ) -> Result<(), NoMemory> {
        match item {
            TreeItem::Label(_) => push_text(alloc, &mut self.trees, line, TREE)?,
            TreeItem::Root(leaves) => {
                let tree = without_end(leaves.as_slice());
                let selection = select_tree(alloc, tabled.tables, program, f.locals, tree)?;
                self.push_tree(alloc, tabled, line, selection)?;
            }
        }
        self.even(alloc)
    }
}

// How a selection ends that has no code.
fn ending_name(ending: Ending) -> &'static str {
    match ending {
        Ending::Done => "",
        Ending::Blocks => "the parse blocks",
        Ending::FrameFull => "no frame word is free",
        Ending::Long => "the parse doesn't end",
    }
}

// The lines of a part of a source, each cut to its column.
fn source_lines(alloc: Global, source: &[u8]) -> Result<Cells, NoMemory> {
    let text = String::from_utf8_lossy(alloc, source)?;
    let mut lines = Vec::new(alloc);
    for line in text.lines() {
        let shown: String = line
            .trim_end()
            .chars()
            .map(|letter| if letter.is_control() { ' ' } else { letter })
            .take(SOURCE)
            .collect(alloc)?;
        lines.push(shown)?;
    }
    Ok(lines)
}

// A part of the source beside its rows.
fn put_rows(alloc: Global, source: &[u8], rows: &Rows, told: &mut String) -> Result<(), NoMemory> {
    let lines = source_lines(alloc, source)?;
    let count = lines.len().max(rows.trees.len());
    for at in 0..count {
        let mut cells = [
            cell_at(&lines, at),
            cell_at(&rows.trees, at),
            cell_at(&rows.rules, at),
            cell_at(&rows.code, at),
        ];
        put_columns(alloc, told, &mut cells, &WIDTHS)?;
    }
    Ok(())
}

// A function: its items as they are written, its statements, and which items come of which.
#[derive(Drop)]
struct Function<'a> {
    f: &'a TreeFn,
    lines: Vec<&'a str>,
    units: Vec<Unit>,
    parts: Parts,
}

// The items of a function up to before the second number, beside a part of the source.
fn put_part(
    alloc: Global,
    tabled: &Tabled,
    program: &TreeProgram,
    function: &Function,
    first: usize,
    behind: usize,
    source: &[u8],
    told: &mut String,
) -> Result<(), NoMemory> {
    let mut rows = Rows::new(alloc);
    let items = function.f.items.as_slice().iter().zip(&function.lines);
    for (number, (item, line)) in items.enumerate() {
        if first <= number && number < behind {
            rows.push_item(alloc, tabled, program, function.f, item, line)?;
        }
    }
    put_rows(alloc, source, &rows, told)
}

// The text of a statement.
fn text_of(words: Words, unit: Unit) -> &[u8] {
    let start = start_of(words, unit.first);
    let last = start_of(words, unit.behind.saturating_sub(1));
    words
        .source
        .get(start..last.saturating_add(1))
        .unwrap_or(&[])
}

// Each statement of a function beside its items, and behind them the return at its end.
fn put_units(
    alloc: Global,
    tabled: &Tabled,
    program: &TreeProgram,
    function: &Function,
    words: Words,
    told: &mut String,
) -> Result<(), NoMemory> {
    let Parts { begin, firsts, end } = &function.parts;
    if *begin > 0 {
        put_part(alloc, tabled, program, function, 0, *begin, b"{", told)?;
    }
    let count = function.f.items.as_slice().len();
    let last = count.saturating_sub(*end);
    let mut behinds = firsts.iter().skip(1);
    for (unit, first) in function.units.iter().zip(firsts) {
        let behind = behinds.next().copied().unwrap_or(last);
        let source = text_of(words, *unit);
        put_part(
            alloc, tabled, program, function, *first, behind, source, told,
        )?;
    }
    put_part(alloc, tabled, program, function, last, count, b"}", told)
}

fn put_function(
    alloc: Global,
    tabled: &Tabled,
    program: &TreeProgram,
    function: &Function,
    words: Words,
    told: &mut String,
) -> Result<(), NoMemory> {
    put_columns(
        alloc,
        told,
        &mut ["source", "tree", "line and rule", "code"],
        &WIDTHS,
    )?;
    if function.parts.firsts.is_empty() {
        let count = function.f.items.as_slice().len();
        return put_part(alloc, tabled, program, function, 0, count, &[], told);
    }
    put_units(alloc, tabled, program, function, words, told)
}

// A function with its statements, the first item of each, and its items as they are written.
fn function_of<'a>(
    alloc: Global,
    f: &'a TreeFn,
    number: usize,
    lines: &mut str::Lines<'a>,
    words: Words,
) -> Result<Function<'a>, NoMemory> {
    let name = str::from_utf8(f.name.as_slice()).unwrap_or("");
    let units = units_of(alloc, words, name)?;
    let parts = match parts_of(alloc, words, &units, number, name)? {
        Some(parts) => parts,
        None => Parts {
            begin: 0,
            firsts: Vec::new(alloc),
            end: 0,
        },
    };
    let mut written = Vec::new(alloc);
    for _ in f.items.as_slice() {
        written.push(lines.next().unwrap_or("").trim())?;
    }
    Ok(Function {
        f,
        lines: written,
        units,
        parts,
    })
}

/// Adds each function's statements, their trees, the rules that these take, by their lines in the description, and their code, side by
/// side.
pub fn put_code(
    alloc: Global,
    tabled: &Tabled,
    source: &[u8],
    typed: &Program,
    program: &TreeProgram,
    told: &mut String,
) -> Result<(), NoMemory> {
    let pieces = pieces(alloc, source)?;
    let words = Words {
        source,
        pieces: &pieces,
    };
    let mut written = String::new(alloc);
    put_program(&mut written, typed, program)?;
    let mut lines = written.lines();
    for (number, f) in program.functions.as_slice().iter().enumerate() {
        writeln!(told, "{}", lines.next().unwrap_or("").trim())?;
        let function = function_of(alloc, f, number, &mut lines, words)?;
        put_function(alloc, tabled, program, &function, words, told)?;
    }
    Ok(())
}
