//! The laws of typed bodies: what typing makes of declarations, expressions and statements fits and stands.
#![tactic(auto)]

ghost use Rattle.c_sound_bodies.specs.Claim.{BodiesAreSound, ObjectsAreSound, LengthsAreSound, BodiesAdd, ObjectsAdd, LengthsAdd};

/// The statements of a function's body fit and stand, and leave what is in scope in order. It does nothing.
pub fn bodies_are_sound()
    ensures { BodiesAreSound }
{}

/// The declaration of a variable at file level leaves what is in scope in order. It does nothing.
pub fn objects_are_sound()
    ensures { ObjectsAreSound }
{}

/// A length in brackets adds at most literals. It does nothing.
#[tactic(auto, using(crate::proofs::Objects::lengths_are_sound))]
pub fn lengths_are_sound()
    ensures { LengthsAreSound }
{}

/// Each of them adds objects behind those that are there, which stay as they are. It does nothing.
pub fn objects_are_added()
    ensures bodies { BodiesAdd }
    ensures objects { ObjectsAdd }
    ensures lengths { LengthsAdd }
{}
