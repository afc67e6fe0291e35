//! How deep the terms nest of what the VAX's templates do. Each function does nothing; its clause is the law.
#![tactic(auto)]

ghost use Rattle.vax_templates_depth.specs.Laws.{TemplatesAreShallow, SavedLinesAreShallow};
ghost use Rattle.vax_templates_depth.specs.Laws.{NormalEffectsAreShallow, DescriptionsAreShallow};

/// The terms of the effect of a rule's template nest at most six times as deep as the template has lines, and one deeper; at most five
/// deep where it has none.
pub fn templates_are_shallow()
    ensures { TemplatesAreShallow }
{}

/// The terms of the effect of a line that saves or reloads nest at most seven deep.
pub fn saved_lines_are_shallow()
    ensures { SavedLinesAreShallow }
{}

/// The normal form of an effect nests at most twice as deep as the effect.
pub fn normal_effects_are_shallow()
    ensures { NormalEffectsAreShallow }
{}

/// In a valid description the terms that a rule's pattern wants, and those of what its template does, nest at most 49 deep.
pub fn descriptions_are_shallow()
    ensures { DescriptionsAreShallow }
{}
