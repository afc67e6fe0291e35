// What a command says of its file: the form that it reads, and how what was read is run.
ghost use Rattle.std.specs.Prelude.{◌≡◌, ◌≤◌, List, ℕ, length, IfOk, IfErr};
ghost use Rattle.cmd_session.specs.Writing.{change};
ghost use Rattle.cmd_files.specs.Forms.{Form, Runner, IsReadAs};
ghost use Rattle.cmd_files.specs.Stages.{ToldRun};
ghost use Rattle.cmd_files.specs.Refusals.{Refuses};

use cmd_session::Status;
use gg_base::{NoMemory, Text};
use gg_outside::Sink;
use std::alloc::Global;

/// Why the bytes of a file are refused.
#[derive(Drop)]
pub enum Refusal {
    /// No memory was left.
    NoMemory,
    /// The line that tells what is wrong with them.
    Line(Text),
}

/// What a refusal says that is told by its line, where memory was there for that.
impl From<NoMemory> for Refusal {
    ghost use Rattle.cmd_files.specs.declared.forms.Refusal.TheVariants as refusals;

    ghost from_gives = { λ _ e. e ≡ refusals.NoMemory };

    fn from(_: NoMemory) -> Self {
        Refusal::NoMemory
    }
}

/// A form of files, by what is read from one.
pub trait FileForm: Drop + Sized {
    /// What a file of the form says.
    ghost Item: { Type 0 };

    /// Which files say what, and how others are refused.
    ghost form: { Form Item };

    /// How what it says is run: `not_run` where no command runs it.
    ghost runner: { Runner Item };

    /// Which bytes say the same as what it says: `not_translated` where no command writes any.
    ghost becomes: { Item → List ℕ → Type 0 };

    /// What was read.
    ghost item: { Self → Item };

    /// The most bytes of a file.
    fn limit() -> u64
        ensures { result ≡ form.limit };

    /// The status of a command whose file is none of the form.
    fn status() -> Status
        ensures { result ≡ form.status };

    /// What the bytes of a file say, or the line that refuses them.
    fn read(alloc: Global, bytes: &[u8]) -> Result<Self, Refusal>
        requires { length bytes.now ≤ form.limit }
        ensures read { IfOk result (λ x. IsReadAs form bytes.now (item x)) }
        ensures refused { IfErr result (Refuses form bytes.now) };
}

/// A form of files whose items can be run on an input.
pub trait Runs: FileForm {
    /// Runs the item on the input with a number of steps or turns. Its output goes to `out`, and then the line of its end to
    /// `report`; of an item that can't be run, the line that tells why goes to `report`.
    fn tell<O: Sink, E: Sink>(
        &self,
        alloc: Global,
        input: &[u8],
        count: u64,
        out: &mut O,
        report: &mut E,
    ) -> Status
        ensures { ToldRun Self.runner Self.form.status (Self.item self.now) input.now count result
            (change O.Sink out.old out.new) (change E.Sink report.old report.new) };
}
