//! Laws of lowering: the functions of a program stay, and each has room in its frame.
#![tactic(auto)]

ghost use Rattle.c_lower_bounds.specs.Claim.{EachFunctionFits, FunctionsStay};

/// The law: each function of a sound program fits the frame that it needs. It does nothing.
#[tactic(auto, using(crate::proofs::Law::each_function_fits))]
pub fn each_function_fits()
    ensures { EachFunctionFits }
{}

/// The law: a program is lowered to the functions and objects that it has. It does nothing.
pub fn functions_stay()
    ensures { FunctionsStay }
{}
