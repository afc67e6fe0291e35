// What an expression is typed as, and which fault is its first.
ghost use Rattle.std.specs.Prelude.{ℕ, List};
ghost use Rattle.c_phrases.specs.Phrases.{AnExp};
ghost use Rattle.c_typed_operators.specs.Table.{Means};
ghost use Rattle.c_typed_scope.specs.declared.entry.Entry.{Entry};
ghost use Rattle.c_typed_scope.specs.declared.entry.Signature.{Signature};
ghost use Rattle.c_typed_scope.specs.Scopes.{Scope};
ghost use Rattle.c_typed_scope.specs.Layout.{Area};
ghost use Rattle.c_typed_expressions.specs.Expressions.{type_exp};
ghost use Rattle.c_typed_expressions.specs.Relations.{IsTyped, FirstFault};

/// The definition that `expression` computes answers what the two relations say: exactly the one typed expression, or
/// exactly the first fault, its own parts' faults from left to right before its own.
#[tactic(auto, using(crate::proofs::Law::exp_means))]
pub fn expression_law()
    ensures { (names : List (List ℕ × Entry)) (signatures : List Signature) (scope : Scope) (e : AnExp) (a : Area)
        → Means (type_exp names signatures scope e a) (IsTyped names signatures scope e a) (FirstFault names signatures scope e a) }
{}
