// The types of expressions.
ghost use Rattle.std.specs.Prelude.{◌≡◌, length, IfOk, Ok, Err};
ghost use Rattle.c_types.specs.Answers.{Gives};
ghost use Rattle.c_types.specs.Typed.{expression_of, expressions_of};
ghost use Rattle.c_typed_scope.specs.Answers.{Turns};
ghost use Rattle.c_phrases.specs.Shapes.{exp, exp_list};
ghost use Rattle.c_typed_expressions.specs.Functions.{by_functions};
ghost use Rattle.c_typed_expressions.specs.Phrases.{first};
ghost use Rattle.c_typed_scope.specs.Scopes.{find};
ghost use Rattle.c_typed_scope.specs.Views.{scope, area};
ghost use Rattle.c_typed_expressions.specs.Expressions.{integer_of, written, named, callee, is_function, type_exp};
ghost use Rattle.c_typed_expressions.specs.Expressions.{type_exps};
ghost use Rattle.c_typed_expressions.specs.Calls.{function_number, callee_of, unfit, called};

use c_phrases::operator::Spec;
use c_phrases::tree::{Expr, Stars};
use c_typed_operators::assignment::assign;
use c_typed_operators::rules::{
    binary, cast, choice, comma, fits, index, prefix, sizeof_expression, sizeof_type, step,
};
use c_typed_scope::data::literal;
use c_typed_scope::{Block, Blocks, Data, Entry, Signature};
use c_types::fault::bad_type;
use c_types::{CType, Callee, Expression, Integer, Moment, Place, TypeFault, TypeKind, Types};
use gg_base::Name;
use std::alloc::Global;

/// The functions that are defined in the text, with the two services first: their names, and their types by number.
#[derive(Drop)]
pub struct Functions {
    pub names: Block,
    pub signatures: Vec<Signature>,
}

/// The integer type that the words of a type name; None for `void`.
#[tactic(auto, unfolding(crate::specs::Expressions::integer_of))]
pub fn integer_of(spec: Spec) -> Option<Integer>
    ensures { result ≡ integer_of spec }
{
    match spec {
        Spec::Int { .. } => Some(Integer::Int),
        Spec::Char { .. } => Some(Integer::Char),
        Spec::Short { .. } => Some(Integer::Short),
        Spec::UnsignedChar { .. } => Some(Integer::UnsignedChar),
        Spec::UnsignedShort { .. } => Some(Integer::UnsignedShort),
        Spec::Void { .. } => None,
    }
}

/// The type that words and stars write. `void` with stars is no type, and stands as `void`.
#[tactic(auto, unfolding(crate::specs::Expressions::written))]
pub fn written(spec: Spec, stars: &Stars) -> CType
    ensures { result ≡ written spec stars.now }
{
    match integer_of(spec) {
        None => CType::Void,
        Some(to) => {
            let count = stars.as_slice().len();
            if count == 0 {
                CType::Integer(to)
            } else {
                CType::Pointer(to, count - 1)
            }
        }
    }
}

/// The offset of the first token.
#[tactic(auto, unfolding(crate::specs::Phrases::first))]
pub fn first(e: &Expr) -> u32
    ensures { result ≡ first (exp e.now) }
{
    match e {
        Expr::Name { at, .. } => *at,
        Expr::Number { at, .. } => *at,
        Expr::Str { at, .. } => *at,
        Expr::Paren { open, .. } => *open,
        Expr::Call { at, .. } => *at,
        Expr::Index { base, .. } => first(base),
        Expr::StepAfter { operand, .. } => first(operand),
        Expr::StepBefore { at, .. } => *at,
        Expr::Prefix { at, .. } => *at,
        Expr::SizeofExpr { at, .. } => *at,
        Expr::SizeofType { at, .. } => *at,
        Expr::Cast { open, .. } => *open,
        Expr::Binary { left, .. } => first(left),
        Expr::Choice { condition, .. } => first(condition),
        Expr::Assign { place, .. } => first(place),
        Expr::Comma { left, .. } => first(left),
    }
}

fn unknown_name<T>(at: u32) -> Result<T, TypeFault>
    ensures { result ≡ Err (TypeFault.At at TypeKind.UnknownName) }
{
    Err(TypeFault::At {
        place: at,
        kind: TypeKind::UnknownName,
    })
}

#[tactic(auto, unfolding(crate::specs::Expressions::named))]
fn named(
    functions: &Functions,
    blocks: &Blocks,
    at: u32,
    name: &Name,
) -> Result<Expression, TypeFault>
    ensures { Gives (λ t. expression_of t) result (by_functions functions.now named (scope blocks.now) at name.now) }
{
    match blocks.lookup(name.as_slice()) {
        Some(Entry::Variable(t, variable)) => Ok(Expression::Read(Place::Variable(t, variable))),
        Some(Entry::Array(t, variable, size)) => Ok(Expression::Array(t, variable, size)),
        Some(Entry::Function(_)) => bad_type(at),
        None => match functions.names.find(name.as_slice()) {
            None => unknown_name(at),
            Some(_) => bad_type(at),
        },
    }
}

fn function_number(functions: &Functions, at: u32, name: &Name) -> Result<Option<usize>, TypeFault>
    ensures { Gives (λ n. n) result (function_number (find functions.now.names name.now) at) }
{
    match functions.names.find(name.as_slice()) {
        Some(Entry::Function(number)) => Ok(Some(number)),
        Some(Entry::Variable(_, _)) => unknown_name(at),
        Some(Entry::Array(_, _, _)) => unknown_name(at),
        None => unknown_name(at),
    }
}

// The number of a called function; None where the name is a variable's.
#[tactic(auto, unfolding(crate::specs::Expressions::callee))]
fn callee(
    functions: &Functions,
    blocks: &Blocks,
    at: u32,
    name: &Name,
) -> Result<Option<usize>, TypeFault>
    ensures { Gives (λ n. n) result (by_functions functions.now callee (scope blocks.now) at name.now) }
{
    match blocks.lookup(name.as_slice()) {
        Some(Entry::Variable(_, _)) => Ok(None),
        Some(Entry::Array(_, _, _)) => Ok(None),
        Some(Entry::Function(_)) => function_number(functions, at, name),
        None => function_number(functions, at, name),
    }
}

// Whether it is a function's name, also in parentheses.
#[tactic(auto, unfolding(crate::specs::Expressions::is_function))]
fn is_function(functions: &Functions, blocks: &Blocks, e: &Expr) -> bool
    ensures { result ≡ by_functions functions.now is_function (scope blocks.now) (exp e.now) }
{
    match e {
        Expr::Name { name, .. } => match blocks.lookup(name.as_slice()) {
            Some(Entry::Variable(_, _)) => false,
            Some(Entry::Array(_, _, _)) => false,
            Some(Entry::Function(_)) => true,
            None => functions.names.find(name.as_slice()).is_some(),
        },
        Expr::Paren { inner, .. } => is_function(functions, blocks, inner),
        _ => false,
    }
}

#[tactic(auto, unfolding(crate::specs::Calls::callee_of))]
fn callee_of(number: u32) -> Callee
    ensures { result ≡ callee_of number }
{
    if number == 0 {
        Callee::Putchar
    } else if number == 1 {
        Callee::Getchar
    } else {
        Callee::Defined(number - 2)
    }
}

// The place of the first argument that its parameter doesn't take.
fn unfit(parameters: &[CType], arguments: &[Expr], xs: &[Expression]) -> Option<u32>
    requires same { length parameters.now ≡ length arguments.now }
    requires typed { length xs.now ≡ length arguments.now }
    ensures { result ≡ unfit parameters.now (exp_list arguments.now) (expressions_of xs.now) }
{
    let number = parameters
        .iter()
        .zip(xs)
        .position(|(parameter, x)| !fits(*parameter, x))?;
    Some(first(&arguments[number]))
}

#[tactic(auto, using(crate::proofs::Rows::count_is))]
fn called(
    alloc: Global,
    functions: &Functions,
    number: Option<usize>,
    bracket: u32,
    arguments: &[Expr],
    xs: Vec<Expression>,
) -> Result<Expression, TypeFault>
    requires { length xs.items ≡ length arguments.now }
    ensures { Gives (λ t. expression_of t) result
        (called functions.now.signatures.items number bracket (exp_list arguments.now) (expressions_of xs.items)) }
{
    let Some(number) = number else {
        return bad_call(bracket);
    };
    match functions.signatures.get(number) {
        None => bad_call(bracket),
        Some(signature) => {
            let parameters = signature.parameters.as_slice();
            if parameters.len() != arguments.len() {
                return bad_call(bracket);
            }
            match unfit(parameters, arguments, &xs) {
                Some(at) => bad_type(at),
                None => {
                    if number > 0xffff_ffff {
                        return Err(TypeFault::NoMemory);
                    }
                    let to = Types::from_vec(Vec::from_slice(alloc, parameters)?);
                    Ok(Expression::Call(signature.result, callee_of(number as u32), to, xs))
                }
            }
        }
    }
}

fn bad_call<T>(at: u32) -> Result<T, TypeFault>
    ensures { result ≡ Err (TypeFault.At at TypeKind.BadCall) }
{
    Err(TypeFault::At {
        place: at,
        kind: TypeKind::BadCall,
    })
}

/// An expression with its types, or its first fault.
#[cycle(phrase)]
pub fn expression(
    alloc: Global,
    functions: &Functions,
    blocks: &Blocks,
    e: &Expr,
    layout: &mut Data,
) -> Result<Expression, TypeFault>
    ensures { Turns (λ t. expression_of t) result (area layout.new) (by_functions functions.now type_exp
        (scope blocks.now) (exp e.now) (area layout.old)) }
{
    match e {
        Expr::Name { name, at } => named(functions, blocks, *at, name),
        Expr::Number { value, .. } => Ok(Expression::Number(*value)),
        Expr::Str { bytes, at } => literal(alloc, layout, *at, bytes),
        Expr::Paren { inner, .. } => expression(alloc, functions, blocks, inner, layout),
        Expr::Call {
            name,
            at,
            open,
            arguments,
        } => {
            let number = callee(functions, blocks, *at, name)?;
            let xs = expressions(alloc, functions, blocks, arguments, layout)?;
            called(alloc, functions, number, *open, arguments, xs)
        }
        Expr::Index {
            base,
            open,
            index: by,
        } => {
            let x = boxed(alloc, functions, blocks, base, layout)?;
            let y = boxed(alloc, functions, blocks, by, layout)?;
            index(alloc, *open, x, y)
        }
        Expr::StepAfter {
            operand,
            operator,
            at,
        } => {
            let x = expression(alloc, functions, blocks, operand, layout)?;
            step(Moment::Before, *operator, *at, x)
        }
        Expr::StepBefore {
            operator,
            at,
            operand,
        } => {
            let x = expression(alloc, functions, blocks, operand, layout)?;
            step(Moment::After, *operator, *at, x)
        }
        Expr::Prefix {
            operator,
            at,
            operand,
        } => {
            let x = boxed(alloc, functions, blocks, operand, layout)?;
            prefix(*operator, *at, x)
        }
        Expr::SizeofExpr { at, operand } => {
            if is_function(functions, blocks, operand) {
                return bad_type(*at);
            }
            let x = boxed(alloc, functions, blocks, operand, layout)?;
            sizeof_expression(*at, x)
        }
        Expr::SizeofType { at, of, .. } => sizeof_type(*at, written(of.spec, &of.stars)),
        Expr::Cast { open, to, operand } => {
            let x = boxed(alloc, functions, blocks, operand, layout)?;
            cast(*open, written(to.spec, &to.stars), x)
        }
        Expr::Binary {
            left,
            operator,
            at,
            right,
        } => {
            let x = boxed(alloc, functions, blocks, left, layout)?;
            let y = boxed(alloc, functions, blocks, right, layout)?;
            binary(*operator, *at, x, y)
        }
        Expr::Choice {
            condition,
            at,
            first,
            second,
        } => {
            let c = boxed(alloc, functions, blocks, condition, layout)?;
            let x = boxed(alloc, functions, blocks, first, layout)?;
            let y = boxed(alloc, functions, blocks, second, layout)?;
            choice(*at, c, x, y)
        }
        Expr::Assign {
            place,
            operator,
            at,
            value,
        } => {
            let x = boxed(alloc, functions, blocks, place, layout)?;
            let y = boxed(alloc, functions, blocks, value, layout)?;
            assign(*operator, *at, x, y)
        }
        Expr::Comma { left, right } => {
            let x = boxed(alloc, functions, blocks, left, layout)?;
            let y = boxed(alloc, functions, blocks, right, layout)?;
            Ok(comma(x, y))
        }
    }
}

// An operand, in a box of its own: a node is made of boxes, so that no large value is held while the next operand is read.
#[cycle(phrase)]
fn boxed(
    alloc: Global,
    functions: &Functions,
    blocks: &Blocks,
    e: &Expr,
    layout: &mut Data,
) -> Result<Box<Expression>, TypeFault>
    ensures { Turns (λ t. expression_of t.value) result (area layout.new) (by_functions functions.now type_exp
        (scope blocks.now) (exp e.now) (area layout.old)) }
{
    Ok(Box::new(alloc, expression(alloc, functions, blocks, e, layout)?)?)
}

/// Expressions one after another.
#[cycle(phrase)]
fn expressions(
    alloc: Global,
    functions: &Functions,
    blocks: &Blocks,
    es: &[Expr],
    layout: &mut Data,
) -> Result<Vec<Expression>, TypeFault>
    ensures same { IfOk result (λ v. length v.items ≡ length es.now) }
    ensures typed { Turns (λ v. expressions_of v.items) result (area layout.new)
        (by_functions functions.now type_exps (scope blocks.now) (exp_list es.now) (area layout.old)) }
{
    let mut xs = Vec::new(alloc);
    for e in es {
        let x = expression(alloc, functions, blocks, e, layout)?;
        xs.push(x)?;
    }
    Ok(xs)
}
