// Whether an automatic local is named in an expression that is evaluated.
ghost use Rattle.std.specs.Prelude.{◌≡◌};
ghost use Rattle.c_types.specs.Typed.{expression_of, place_of, expressions_of};
ghost use Rattle.c_lower_scheme.specs.Mentions.{is_local, mentions, place_mentions, any_mentions};

use c_types::{Expression, Place, Variable};

/// Whether a variable is the local.
pub fn is_local(local: u32, v: Variable) -> bool
    ensures { result ≡ is_local local v }
{
    match v {
        Variable::Automatic(n) => n == local,
        Variable::Parameter(_) => false,
        Variable::Global(_) => false,
        Variable::Static(_) => false,
        Variable::InBlock(_) => false,
    }
}

#[cycle(mentions)]
fn place_mentions(local: u32, place: &Place) -> bool
    ensures { result ≡ place_mentions local (place_of place.now) }
{
    match place {
        Place::Variable(_, v) => is_local(local, *v),
        Place::Indirection(_, e) => mentions(local, e),
        Place::Index(_, sum) => mentions(local, sum),
    }
}

// Whether it is named in one of these.
#[cycle(mentions)]
fn any_mentions(local: u32, es: &[Expression]) -> bool
    ensures { result ≡ any_mentions local (expressions_of es.now) }
{
    match es.split_first() {
        None => false,
        Some((e, rest)) => mentions(local, e) || any_mentions(local, rest),
    }
}

/// Whether the automatic local is named in the expression; what `sizeof` measures is not evaluated.
#[cycle(mentions)]
pub fn mentions(local: u32, e: &Expression) -> bool
    ensures { result ≡ mentions local (expression_of e.now) }
{
    match e {
        Expression::Number(_) => false,
        Expression::Literal(_, _) => false,
        Expression::Array(_, v, _) => is_local(local, *v),
        Expression::Read(p) => place_mentions(local, p),
        Expression::SizeofExpression(_, _) => false,
        Expression::SizeofType(_) => false,
        Expression::Address(_, p) => place_mentions(local, p),
        Expression::Call(_, _, _, es) => any_mentions(local, es),
        Expression::Step(_, _, p) => place_mentions(local, p),
        Expression::Unary(_, e) => mentions(local, e),
        Expression::Cast(_, e) => mentions(local, e),
        Expression::Convert(_, e) => mentions(local, e),
        Expression::Arithmetic(_, a, b) => mentions(local, a) || mentions(local, b),
        Expression::Compare(_, a, b) => mentions(local, a) || mentions(local, b),
        Expression::AndAnd(a, b) => mentions(local, a) || mentions(local, b),
        Expression::OrOr(a, b) => mentions(local, a) || mentions(local, b),
        Expression::Advance(_, a, b) => mentions(local, a) || mentions(local, b),
        Expression::AdvanceBy(_, a, b) => mentions(local, a) || mentions(local, b),
        Expression::Retreat(_, a, b) => mentions(local, a) || mentions(local, b),
        Expression::Distance(_, a, b) => mentions(local, a) || mentions(local, b),
        Expression::Choice(_, c, a, b) => mentions(local, c)
            || mentions(local, a)
            || mentions(local, b),
        Expression::Assign(p, e) => place_mentions(local, p) || mentions(local, e),
        Expression::ArithmeticAssign(_, p, e) => place_mentions(local, p) || mentions(local, e),
        Expression::AdvanceAssign(p, e) => place_mentions(local, p) || mentions(local, e),
        Expression::RetreatAssign(p, e) => place_mentions(local, p) || mentions(local, e),
        Expression::Comma(_, a, b) => mentions(local, a) || mentions(local, b),
    }
}
