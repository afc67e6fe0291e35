// How a row shows where its first fault is.
use std::alloc::AllocError;

/// Adds the kind of a fault and the row with an `@` before the offset of the fault; or the offset, where no character begins there.
pub fn put_marked(
    told: &mut String,
    kind: &str,
    row: &str,
    offset: usize,
) -> Result<(), AllocError> {
    match (row.get(..offset), row.get(offset..)) {
        (Some(before), Some(behind)) => writeln!(told, "{kind} {before}@{behind}"),
        _ => writeln!(told, "{kind} {offset} {row}"),
    }
}
