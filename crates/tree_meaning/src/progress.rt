// How a run goes on.

ghost use Rattle.std.specs.Prelude.{◌≡◌};
ghost use Rattle.tree_meaning.specs.View.{turn_by};

use gg_base::{Finish, SourceTurn};

/// How the run goes on behind a tree.
#[derive(Clone, Copy)]
pub(crate) enum Progress {
    Goes,
    /// On, and this byte was written.
    Wrote(u8),
    Ends(Finish),
}

impl Progress {
    /// The answer to it.
    pub(crate) fn turn(self) -> SourceTurn
        ensures { result ≡ turn_by self }
    {
        match self {
            Progress::Goes => SourceTurn::Going,
            Progress::Wrote(byte) => SourceTurn::Wrote(byte),
            Progress::Ends(end) => end.turn(),
        }
    }
}
