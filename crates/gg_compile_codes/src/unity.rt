// The law. The function does nothing; its clause is the law.
ghost use Rattle.gg_compile_codes.specs.OneCode.{SelectedCodesAreOne};

/// The law: a description selects one code of a tree program.
pub fn selected_codes_are_one()
    ensures { SelectedCodesAreOne }
{}
