// Building the tables of a description.
ghost use Rattle.std.specs.Prelude.{◌≡◌, ◌≤◌, length, IfOk, IfErr};
ghost use Rattle.lr_tables.specs.Statements.{stmt_of};
ghost use Rattle.lr_tables.specs.Promises.{HasTooManySets};

use crate::kept::all_kept;
use crate::numbering::BuildFault;
use crate::tables::Tables;
use md_reader::{Class, Description};
use std::alloc::Global;

// The number of the class of statements.
fn statements(classes: &[Class]) -> u16
    requires { length classes.now ≤ 64 }
    ensures { result ≡ stmt_of classes.now }
{
    match classes
        .iter()
        .position(|class| class.name.as_slice() == b"stmt".as_slice())
    {
        Some(number) => number as u16,
        None => 0,
    }
}

/// The tables of the description, or the description again and why none are built: `TablesFull`
/// comes exactly where more than `MAX_STATES` item sets are reached.
pub fn build(alloc: Global, description: Description) -> Result<Tables, (Description, BuildFault)>
    ensures tables { IfOk result (λ t. t.content ≡ description) }
    // No more than `MAX_STATES` item sets are reached.
    ensures few { IfOk result (λ t. ¬ HasTooManySets description) }
    ensures full { IfErr result (λ e. e.1 ≡ BuildFault.TablesFull → HasTooManySets description) }
    ensures back { IfErr result (λ e. e.0 ≡ description) }
{
    description.is_valid();
    let stmt = statements(description.classes());
    match all_kept(
        alloc,
        description.rules(),
        stmt,
        description.classes().len(),
    ) {
        Ok(kept) => Ok(Tables::new(description, kept)),
        Err(fault) => Err((description, fault)),
    }
}
