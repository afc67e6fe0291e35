// Programs of trees as text: a line `function NAME ARGUMENTS LOCALS WANTED`, with the numbers of the wanted locals, and its items, each
// indented by two blanks, a label as `L5:`; and a line `object ADDRESS SIZE ALIGNMENT BYTE COUNT LINKS` for each object, whose bytes count
// up from BYTE, a link as `AT:OBJECT`.
use crate::leaves::{leaves_of, number};
use gg_base::{Bytes, Name, NoMemory};
use std::alloc::Global;
use tree_core::{
    Leaves, Link, Links, LocalNumbers, Object, Objects, TreeFn, TreeFns, TreeItem, TreeItems,
    TreeProgram,
};

fn item_of(alloc: Global, text: &str) -> Result<TreeItem, NoMemory> {
    if let Some(rest) = text.strip_prefix("L") {
        if let Some(digits) = rest.strip_suffix(":") {
            return Ok(TreeItem::Label(number(digits)));
        }
    }
    Ok(TreeItem::Root(Leaves::from_vec(leaves_of(alloc, text)?)))
}

fn name_of(alloc: Global, word: &str) -> Result<Name, NoMemory> {
    Ok(Name::from_vec(Vec::from_slice(alloc, word.as_bytes())?))
}

// A function from its name on.
fn function_of(alloc: Global, text: &str) -> Result<TreeFn, NoMemory> {
    let items = text
        .lines()
        .filter_map(|line| line.strip_prefix("  "))
        .map(|item| item_of(alloc, item))
        .try_collect(alloc)?;
    let head = text.lines().next().unwrap_or("");
    let mut words = head.split(' ');
    let name = words.next().unwrap_or("");
    let args = number(words.next().unwrap_or(""));
    let locals = number(words.next().unwrap_or(""));
    let wanted = words.map(number).collect(alloc)?;
    Ok(TreeFn {
        name: name_of(alloc, name)?,
        args,
        locals,
        wanted: LocalNumbers::from_vec(wanted),
        items: TreeItems::from_vec(items),
    })
}

fn bytes_of(alloc: Global, first: u32, count: u32) -> Result<Bytes, NoMemory> {
    let mut bytes = Vec::new(alloc);
    for number in 0..count {
        bytes.push((first.wrapping_add(number) & 0xff) as u8)?;
    }
    Ok(Bytes::from_vec(bytes))
}

fn link_of(word: &str) -> Option<Link> {
    let (at, object) = word.split_once(':')?;
    Some(Link {
        at: number(at),
        object: number(object),
    })
}

fn object_of(alloc: Global, text: &str) -> Result<Object, NoMemory> {
    let mut words = text.split(' ');
    let address = number(words.next().unwrap_or(""));
    let size = number(words.next().unwrap_or(""));
    let align = number(words.next().unwrap_or(""));
    let first = number(words.next().unwrap_or(""));
    let count = number(words.next().unwrap_or(""));
    let links = words.filter_map(link_of).collect(alloc)?;
    Ok(Object {
        label: name_of(alloc, "_x")?,
        address,
        size,
        align,
        bytes: bytes_of(alloc, first, count)?,
        links: Links::from_vec(links),
    })
}

/// The program that the lines write.
pub fn program_of(alloc: Global, text: &str) -> Result<TreeProgram, NoMemory> {
    let objects = text
        .lines()
        .filter_map(|line| line.strip_prefix("object "))
        .map(|object| object_of(alloc, object))
        .try_collect(alloc)?;
    let functions = text
        .split("function ")
        .skip(1)
        .map(|part| function_of(alloc, part))
        .try_collect(alloc)?;
    Ok(TreeProgram {
        functions: TreeFns::from_vec(functions),
        objects: Objects::from_vec(objects),
    })
}
