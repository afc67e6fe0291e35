//! What the instructions of a selection are: lines of the description with their holes filled. Each function does nothing; its
//! clause is a law.
#![tactic(auto)]

ghost use Rattle.sel_parse_lines.specs.Claims.{SelectionsAreFilled, SelectionsUseFewWords, StatementsHaveCode};

use sel_target::{Target, Templates};

/// Each instruction of a selection is a line of the description with its holes filled, by what passes every test that a
/// selection's steps keep; of the frame's words it uses none from `NEED_LIMIT` on.
pub fn selections_are_filled<T: Templates>(_target: &T)
    ensures filled { SelectionsAreFilled T.meaning }
    ensures few { SelectionsUseFewWords T.meaning }
{}

/// The code of a statement has an instruction, over any target that keeps the laws.
pub fn statements_have_code<T: Target>(_target: &T)
    ensures { StatementsHaveCode T.meaning }
{}
