// The types that a function's heading writes.
ghost use Rattle.std.specs.Prelude.{◌≡◌, ◌&&◌, map, IfOk};
ghost use Rattle.c_types.specs.Types.{same_type};
ghost use Rattle.c_phrases.specs.UnitShapes.{param_of, param_list, params_of};
ghost use Rattle.c_typed_expressions.specs.Expressions.{written, integer_of};
ghost use Rattle.c_typed_expressions.specs.Phrases.{params_in};
ghost use Rattle.c_typed_definition.specs.Signatures.{parameter_type, array_parameter, signature_of, heading};
ghost use Rattle.c_typed_definition.specs.Headings.{same_types, same_signature};

use c_phrases::operator::Spec;
use c_phrases::tree::{Function, Param, Params};
use c_typed_expressions::phrase::{integer_of, written};
use c_typed_scope::Signature;
use c_types::{CType, Types};
use std::alloc::{AllocError, Global};

/// The type of a parameter; one that is written as an array is a pointer.
pub fn parameter_type(p: &Param) -> CType
    ensures { result ≡ parameter_type (param_of p.now) }
{
    match &p.length {
        None => written(p.spec, &p.stars),
        Some(_) => match integer_of(p.spec) {
            None => CType::Void,
            Some(to) => CType::Pointer(to, p.stars.as_slice().len()),
        },
    }
}

/// The parameters of a heading; the word `void` alone is none.
pub fn parameters(params: &Params) -> &[Param]
    ensures { param_list result.now ≡ params_in (params_of params.now) }
{
    match params {
        Params::None => &[],
        Params::Void { .. } => &[],
        Params::List(list) => list,
    }
}

fn parameter_types(alloc: Global, params: &[Param]) -> Result<Types, AllocError>
    ensures { IfOk result (λ t. t ≡ map parameter_type (param_list params.now)) }
{
    let types = params.iter().map(parameter_type).collect(alloc)?;
    Ok(Types::from_vec(types))
}

/// The types that a function's heading writes.
pub fn signature(alloc: Global, spec: Spec, f: &Function) -> Result<Signature, AllocError>
    ensures { IfOk result (λ s. s ≡ heading spec f.now.stars (params_of f.now.params)) }
{
    Ok(Signature {
        result: written(spec, &f.stars),
        parameters: parameter_types(alloc, parameters(&f.params))?,
    })
}

fn same_types(a: &[CType], b: &[CType]) -> bool
    ensures { result ≡ same_types a.now b.now }
{
    a.len() == b.len() && a.iter().zip(b).all(|(s, t)| s.is_same(*t))
}

/// Whether two declarations of a function agree.
pub fn same_signature(a: &Signature, b: &Signature) -> bool
    ensures { result ≡ same_signature a.now b.now }
{
    a.result.is_same(b.result) && same_types(a.parameters.as_slice(), b.parameters.as_slice())
}
