// A program's code as it is computed, and its code of which the laws speak, are one.
ghost use Rattle.gg_compile_codes.specs.Selected.{ComputedCodesAreSelected, SelectedCodesAreComputed};
ghost use Rattle.gg_compile_codes.specs.Selected.{TypedCodesAreSelected, TypedCodesAreComputed};

/// The law: a code that is computed of trees that are ready is the one of which the laws speak. It does nothing.
pub fn computed_codes_are_selected()
    ensures { ComputedCodesAreSelected }
{}

/// The law: and by checked tables the code of which the laws speak is computed. It does nothing.
pub fn selected_codes_are_computed()
    ensures { SelectedCodesAreComputed }
{}

/// The law: so it is with a typed program whose functions fit their frames. It does nothing.
#[tactic(auto, using(crate::proofs::Selected::typed_codes_are_selected, crate::proofs::Selected::typed_codes_are_computed))]
pub fn typed_codes_are_selected()
    ensures selected { TypedCodesAreSelected }
    ensures computed { TypedCodesAreComputed }
{}
