// The laws. Each function does nothing; its clause is the law.
ghost use Rattle.gg_compile_names.specs.Claims.{LabelsStand, SelectedNamesAreThere};

/// The law: the instructions that are selected of a tree name what is there, where the labels of the program and of the tree's
/// function stand.
pub fn selected_names_are_there()
    ensures { SelectedNamesAreThere }
{}

/// The law: in the code of a program's functions their labels stand, and those of their trees, and in its data area those of its objects.
pub fn labels_stand()
    ensures { LabelsStand }
{}
