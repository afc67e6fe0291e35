//! Laws of lowering: what code for the trees of a sound program asks of their names, numbers, labels and locals.
#![tactic(auto)]

ghost use Rattle.gg_compile_spelled.specs.Claims.{LoweredIsSpelled, LabelsAreSmall, NamesAreSpelled, TypedHaveNames, LocalsAreFew};

/// The law: numbers, offsets and labels in the trees of a sound program are longwords, where longwords count its labels. It does nothing.
pub fn lowered_is_spelled()
    ensures { LoweredIsSpelled }
{}

/// The law: the labels of items have at most 64 bits, where these count the program's labels. It does nothing.
pub fn labels_are_small()
    ensures { LabelsAreSmall }
{}

/// The law: a function's label can be spelled where its name is one of the grammar. It does nothing.
pub fn names_are_spelled()
    ensures { NamesAreSpelled }
{}

/// The law: the functions of the program that a unit is typed as have names of the grammar, where its tokens are those. It does nothing.
pub fn typed_have_names()
    ensures { TypedHaveNames }
{}

/// The law: a function has at most as many locals as its frame has longwords. It does nothing.
pub fn locals_are_few()
    ensures { LocalsAreFew }
{}
