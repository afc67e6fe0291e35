// The law. The function does nothing; its clause is the law.
ghost use Rattle.gg_compile_arguments.specs.Claims.{SelectedArgumentsFit};

/// The law: the code that is selected of a tree, whose leaves name what is there, has no arguments but its function's.
pub fn selected_arguments_fit()
    ensures { SelectedArgumentsFit }
{}
