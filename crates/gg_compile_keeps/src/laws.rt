// The law. The function does nothing; its clause is the law.
ghost use Rattle.gg_compile_keeps.specs.Claims.{SelectedCodesKeepTrees};

/// The law: the code that is selected of a program's trees loads, and its run follows whatever the run of the trees follows.
pub fn selected_codes_keep_trees()
    ensures { SelectedCodesKeepTrees }
{}
