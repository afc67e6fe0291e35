// The table of binary operators, row by row.
ghost use Rattle.std.specs.Prelude.{ℕ};
ghost use Rattle.c_phrases.specs.declared.operator.BinaryOperator.{BinaryOperator};
ghost use Rattle.c_types.specs.declared.fault.TypeKind.TheVariants.{BadType};
ghost use Rattle.c_types.specs.Typed.{AnExpression};
ghost use Rattle.c_typed_operators.specs.Rules.{binary_of};
ghost use Rattle.c_typed_operators.specs.Table.{IsBinary, Means, NoRow};

/// What a binary operator makes of two operands is what the rows of the table say, and BadType at the operator is
/// the answer exactly where no row fits.
#[tactic(auto, using(crate::proofs::Law::binary_means))]
pub fn binary_law()
    ensures { (op : BinaryOperator) (at : ℕ) (x y : AnExpression) → Means (binary_of op at x y) (IsBinary op x y)
        (NoRow (IsBinary op x y) at BadType) }
{}
