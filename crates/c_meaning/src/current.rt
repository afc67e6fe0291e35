// What is done now, closed up: a machine's type then shows no type of its program's phrases.

ghost use Rattle.std.specs.Prelude.{◌≡◌};

use crate::frame::Control;
use std::marker::Model;

/// What is done now, which a machine holds.
#[derive(Drop)]
pub(crate) struct Current<'a> {
    control: Control<'a>,
}

impl<'a> Model for Current<'a> {
    ghost use Rattle.std.specs.Coded.{codes};
    ghost use Rattle.c_types.specs.contracts.typed.Expression as expression;
    ghost use Rattle.c_program.specs.contracts.statement.Action as action;
    ghost use Rattle.c_meaning.specs.declared.frame.Control.{Control};

    ghost Value = { Control };

    ghost view = { λ c. c.control };

    ghost coded = { Prim.hlevel (codes, expression.the_row.coded, action.the_row.coded) };
}

impl<'a> Current<'a> {
    /// It is this.
    pub(crate) fn of(control: Control<'a>) -> Current<'a>
        ensures { result ≡ control.entry }
    {
        Current { control }
    }

    /// What it is.
    pub(crate) fn get(&self) -> Control<'a>
        ensures { result ≡ self.now }
    {
        self.control
    }
}
