//! The code that the attributed parse of a tree selects: definitions, and what is true of every selection. Each function does nothing; its
//! clauses are laws.
#![tactic(auto)]

ghost use Rattle.sel_parse_selected.specs.Claims.{HasOneCode, IsOneEnd, IsMade, IsFull};
ghost use Rattle.sel_parse_selected.specs.Rows.{Rows};

use sel_target::Templates;

/// A tree has one code, which is what the parse's moves make; the frame is full only where a spill was due and no frame word was free.
pub fn trees_have_one_code<T: Templates>(_target: &T)
    ensures one { HasOneCode T.meaning }
    ensures end { IsOneEnd T.meaning }
    ensures made { IsMade T.meaning }
    ensures full { IsFull T.meaning }
{}

/// Worked rows over a toy machine: a tree's code with two registers, a spill and a reload; a full frame; a spilled place; questions.
#[tactic(auto, using(crate::proofs::Worked::worked))]
pub fn rows_are_selected()
    ensures { Rows }
{}
