// How labels are spelled.
ghost use Rattle.std.specs.Prelude.{◌≡◌, IfOk};
ghost use Rattle.tree_core.specs.Names.{label_name, function_label};

use gg_base::Name;
use std::alloc::{AllocError, Global};

/// A label of a tree program: `L` and its number in decimal.
pub fn label_name(alloc: Global, label: u32) -> Result<Name, AllocError>
    ensures { IfOk result (λ n. n ≡ label_name label) }
{
    let name = format!(in alloc; "L{label}")?;
    Ok(Name::from_vec(name.into_bytes()))
}

/// A function's label: its name with `_` in front.
pub fn function_label(alloc: Global, name: &Name) -> Result<Name, AllocError>
    ensures { IfOk result (λ n. n ≡ function_label name.now) }
{
    let mut label = Vec::new(alloc);
    label.push(b'_')?;
    label.extend_from_slice(name.as_slice())?;
    Ok(Name::from_vec(label))
}
