//! The table of what may be wrong with a description's line. The functions do nothing; their clauses are the laws.
#![tactic(auto)]

ghost use Rattle.md_reader_kinds.specs.Table.{FirstKindIsAnswered, FirstKindAtTheEnd};

/// The reader answers the first kind of the table that applies to a line, and takes the line exactly where none does, for any target.
pub fn first_kind_is_answered()
    ensures { FirstKindIsAnswered }
{}

/// And so it does where the lines end: a bad `each` line goes before what is missing at the text's end.
pub fn first_kind_at_the_end()
    ensures { FirstKindAtTheEnd }
{}
