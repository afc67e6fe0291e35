//! A C source is of one program. The function does nothing; its clause is the law.
#![tactic(auto)]

ghost use Rattle.c_typed_one.specs.Claims.{SourcesHaveOneProgram};

/// The law: two programs of which the same bytes are the source are the same.
pub fn sources_have_one_program()
    ensures { SourcesHaveOneProgram }
{}
