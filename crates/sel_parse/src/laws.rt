// What is true of every selection.
ghost use Rattle.sel_parse.specs.Exclusive.{HasOneCode, IsNotFull, IsNotBlocked, IsOneRefusal};

use sel_target::Templates;

/// No two answers of `select` stand for one tree: so each comes exactly where its definition holds, want of memory aside. The call
/// does nothing:
/// its clauses are the laws.
pub fn answers_are_one<T: Templates>(_target: &T)
    ensures code { HasOneCode T.meaning }
    ensures full { IsNotFull T.meaning }
    ensures blocked { IsNotBlocked T.meaning }
    ensures refusal { IsOneRefusal T.meaning }
{}
