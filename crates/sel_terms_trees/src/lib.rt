//! The effects that patterns want, over what trees mean. Each function does nothing; its clause is the law.
#![tactic(auto)]

ghost use Rattle.sel_terms_trees.specs.Claims.{RulesMeanTrees, StatementsMeanTrees};

/// The effect that a rule's pattern wants gives what the tree means that the pattern covers, or divides by zero.
pub fn rules_mean_trees()
    ensures { RulesMeanTrees }
{}

/// The effect that a statement's pattern wants is the tree's deed.
pub fn statements_mean_trees()
    ensures { StatementsMeanTrees }
{}
