//! Which trees have no wild part. Each function does nothing; its clause is the law.
#![tactic(auto)]

ghost use Rattle.tree_meaning_tame.specs.Claims.{DeedIsTame, TrapIsTame, SeesTheDeed, NamedIsThere};

/// A statement that does something has no wild part and divides nowhere by zero.
pub fn deeds_are_tame()
    ensures { DeedIsTame }
{}

/// A calm statement that traps has no wild part, if its leaves name what is there.
pub fn traps_are_tame()
    ensures { TrapIsTame }
{}

/// Who sees more locals sees the same deed, where there is one.
pub fn who_sees_more_sees_the_deed()
    ensures { SeesTheDeed }
{}

/// What the leaves of a function's trees name is there in its frame.
pub fn named_is_there()
    ensures { NamedIsThere }
{}
