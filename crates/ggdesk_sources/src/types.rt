// Rows of the subject `types`, each a C source: `ok`, or its first fault. In a row `expression E` the source is a program in which E
// stands as a statement, between HEAD and TAIL. A row `layout T` asks for the objects of the source T, and `need T` for the frame need of
// its functions.
use crate::marks::put_marked;
use c_typed::{Program, SourceFault, read_source};
use gg_base::limits::SOURCE_LIMIT;
use gg_base::{Name, NoMemory};
use std::alloc::{AllocError, Global};

const HEAD: &str =
    "int i;char c;short s;unsigned char u;unsigned short w;int*p;int*q;char*r;int**pp;int a[3];\
    void v(){}int f(int x,char*y){return x;}int main(){int k;";

const TAIL: &str = ";return 0;}";

fn put_name(told: &mut String, name: &Name) -> Result<(), AllocError> {
    told.push_str("  ")?;
    told.extend(name.as_slice().iter().map(|byte| char::from(*byte)))
}

fn put_layout(program: &Program, told: &mut String) -> Result<(), AllocError> {
    for object in program.layout() {
        put_name(told, &object.label)?;
        write!(told, " at {}, {} bytes:", object.address, object.size)?;
        for byte in object.bytes.as_slice() {
            write!(told, " {byte}")?;
        }
        for link in object.links.as_slice() {
            write!(told, "; at {} object {}", link.at, link.object)?;
        }
        told.push('\n')?;
    }
    Ok(())
}

fn put_need(program: &Program, told: &mut String) -> Result<(), AllocError> {
    let routines = program.plain().routines.as_slice();
    for (number, routine) in routines.iter().enumerate() {
        if let Ok(function) = u32::try_from(number) {
            put_name(told, &routine.name)?;
            writeln!(told, " needs {}", program.need(function))?;
        }
    }
    Ok(())
}

// The first fault of the row's source, which stands between `head` and `tail`, with its place marked.
fn answer_fault(
    alloc: Global,
    head: &str,
    row: &str,
    tail: &str,
    told: &mut String,
) -> Result<(), NoMemory> {
    let source = format!(in alloc; "{head}{row}{tail}")?;
    if source.len() as u64 > SOURCE_LIMIT {
        told.push_str("too long\n")?;
        return Ok(());
    }
    match read_source(alloc, source.as_bytes()) {
        Ok(_) => writeln!(told, "ok {row}")?,
        Err(SourceFault::NoMemory) => return Err(NoMemory),
        Err(SourceFault::At { place, kind }) => {
            let kind = format!(in alloc; "{kind}")?;
            let offset = (place.column as usize).saturating_sub(head.len().saturating_add(1));
            put_marked(told, &kind, row, offset)?;
        }
    }
    Ok(())
}

fn answer_program(
    alloc: Global,
    row: &str,
    is_need: bool,
    told: &mut String,
) -> Result<(), NoMemory> {
    if row.len() as u64 > SOURCE_LIMIT {
        told.push_str("too long\n")?;
        return Ok(());
    }
    let Ok(program) = read_source(alloc, row.as_bytes()) else {
        return answer_fault(alloc, "", row, "", told);
    };
    writeln!(told, "{row}")?;
    if is_need {
        put_need(&program, told)?;
    } else {
        put_layout(&program, told)?;
    }
    Ok(())
}

/// Adds what is said of each row's source.
pub fn answer_types(alloc: Global, rows: &str, told: &mut String) -> Result<(), NoMemory> {
    for row in rows.lines() {
        match row.split_once(' ') {
            Some(("expression", text)) => answer_fault(alloc, HEAD, text, TAIL, told)?,
            Some(("layout", text)) => answer_program(alloc, text, false, told)?,
            Some(("need", text)) => answer_program(alloc, text, true, told)?,
            _ => answer_fault(alloc, "", row, "", told)?,
        }
    }
    Ok(())
}
