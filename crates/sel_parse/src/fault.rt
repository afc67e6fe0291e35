// Why the rules of a description are not shown.

use gg_base::NoMemory;
use sel_target::TemplateKind;
use sel_terms::Effect;

/// Why not all rules are shown. Rules count from 1; the lines that save and reload together are rule 0.
#[derive(Drop)]
pub enum ShowFault {
    NoMemory,
    /// The rule needs more registers than the pool has.
    PoolSmall {
        rule: u32,
        need: u32,
    },
    /// The template has a fault in this line of the description.
    Template {
        rule: u32,
        line: u32,
        kind: TemplateKind,
    },
    /// The two effects, in normal form, differ.
    Unshown {
        rule: u32,
        wanted: Effect,
        found: Effect,
    },
}

impl From<NoMemory> for ShowFault {
    ghost use Rattle.std.specs.Prelude.{◌≡◌};
    ghost use Rattle.sel_parse.specs.declared.fault.ShowFault.TheVariants as faults;

    ghost from_gives = { λ _ e. e ≡ faults.NoMemory };

    fn from(_: NoMemory) -> Self {
        ShowFault::NoMemory
    }
}
