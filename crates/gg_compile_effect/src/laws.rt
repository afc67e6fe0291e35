// The law. The function does nothing; its clause is the law.
ghost use Rattle.gg_compile_effect.specs.Claims.{SelectedTreesHaveEffect};

/// The law: the code that is selected of a tree of a valid program at the VAX has the tree's effect.
pub fn selected_trees_have_effect()
    ensures { SelectedTreesHaveEffect }
{}
