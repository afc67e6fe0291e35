// Where an expression applies `&` to a name.
ghost use Rattle.std.specs.Prelude.{◌≡◌, MatchOption, None, Some};
ghost use Rattle.c_phrases.specs.Shapes.{exp, exp_list};
ghost use Rattle.c_phrases.specs.UnitShapes.{part};
ghost use Rattle.c_typed_scope.specs.Views.{scope};
ghost use Rattle.c_typed_addressed.specs.Expressions.{name_of, applied, marks_of, marks_of_all, marks_of_part};
ghost use Rattle.c_typed_addressed.specs.Views.{marks};

use crate::search::Addressed;
use c_phrases::operator::PrefixOperator;
use c_phrases::tree::Expr;
use c_typed_scope::Blocks;
use gg_base::Name;

// The name that an expression is, also in parentheses.
#[tactic(auto, unfolding(crate::specs::Expressions::name_of))]
fn name_of(e: &Expr) -> Option<&Name>
    ensures { MatchOption result (name_of (exp e.now) ≡ None) (λ n. name_of (exp e.now) ≡ Some n.now) }
{
    match e {
        Expr::Name { name, .. } => Some(name),
        Expr::Paren { inner, .. } => name_of(inner),
        _ => None,
    }
}

// An operator in front of its operand, which is looked through already.
fn apply(blocks: &Blocks, operator: PrefixOperator, operand: &Expr, found: &mut Addressed)
    ensures { marks found.new ≡ applied (scope blocks.now) operator (exp operand.now) (marks found.old) }
{
    if let PrefixOperator::Address = operator {
        if let Some(name) = name_of(operand) {
            found.mark(blocks.lookup(name.as_slice()));
        }
    }
}

/// Marks the variables to which an expression applies `&`.
#[cycle(expression)]
pub(crate) fn expression(blocks: &Blocks, e: &Expr, found: &mut Addressed)
    ensures { marks found.new ≡ marks_of (scope blocks.now) (exp e.now) (marks found.old) }
{
    match e {
        Expr::Name { .. } | Expr::Number { .. } | Expr::Str { .. } | Expr::SizeofType { .. } => {}
        Expr::Paren { inner, .. } => expression(blocks, inner, found),
        Expr::Call { arguments, .. } => expressions(blocks, arguments, found),
        Expr::Index { base, index, .. } => {
            expression(blocks, base, found);
            expression(blocks, index, found);
        }
        Expr::StepAfter { operand, .. } => expression(blocks, operand, found),
        Expr::StepBefore { operand, .. } => expression(blocks, operand, found),
        Expr::Prefix {
            operator,
            operand,
            ..
        } => {
            expression(blocks, operand, found);
            apply(blocks, *operator, operand, found);
        }
        Expr::SizeofExpr { operand, .. } => expression(blocks, operand, found),
        Expr::Cast { operand, .. } => expression(blocks, operand, found),
        Expr::Binary { left, right, .. } => {
            expression(blocks, left, found);
            expression(blocks, right, found);
        }
        Expr::Choice {
            condition,
            first,
            second,
            ..
        } => {
            expression(blocks, condition, found);
            expression(blocks, first, found);
            expression(blocks, second, found);
        }
        Expr::Assign { place, value, .. } => {
            expression(blocks, place, found);
            expression(blocks, value, found);
        }
        Expr::Comma { left, right } => {
            expression(blocks, left, found);
            expression(blocks, right, found);
        }
    }
}

/// The same of expressions, from left to right.
#[cycle(expression)]
pub(crate) fn expressions(blocks: &Blocks, es: &[Expr], found: &mut Addressed)
    ensures { marks found.new ≡ marks_of_all (scope blocks.now) (exp_list es.now) (marks found.old) }
{
    for e in es {
        expression(blocks, e, found);
    }
}

/// The same of an expression that may be left out.
pub(crate) fn maybe(blocks: &Blocks, e: &Option<Expr>, found: &mut Addressed)
    ensures { marks found.new ≡ marks_of_part (scope blocks.now) (part e.now) (marks found.old) }
{
    if let Some(e) = e {
        expression(blocks, e, found);
    }
}
