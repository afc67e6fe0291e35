// The top call: the words choose the command.
ghost use Rattle.std.specs.Prelude.{◌≡◌, ◌<◌, ◌+◌, ℕ, List, length};
ghost use Rattle.cmd_session.specs.Reading.{intake, TakesAtMost};
ghost use Rattle.cmd_session.specs.Writing.{change, IsUntouched};
ghost use Rattle.cmd_session.specs.Words.{spelled, SaysCheck, SaysCompile, SaysRun, SaysMeaning, SaysLoad, SaysImage, SaysText};
ghost use Rattle.cmd_session.specs.Words.{SaysCheck32, SaysRun32};
ghost use Rattle.cmd_session.specs.Choice.{SaysNone};
ghost use Rattle.cmd_session.specs.Lines.{usage_line};
ghost use Rattle.cmd_session.specs.Telling.{IsRefused};
ghost use Rattle.cmd_files.specs.Outsides.{lookup, outside, FailsAtMost};
ghost use Rattle.cmd_files.specs.Stages.{input_limit};
ghost use Rattle.cmd_files.specs.Calls.{call_of};
ghost use Rattle.cmd_files.specs.Outcome.{Leaves};
ghost use Rattle.cmd_files.specs.Exact.{IsExact};
ghost use Rattle.cmd_files.specs.Translations.{IsTranslated};
ghost use Rattle.cmd_load.specs.cmd_check.specs.Outcome.{Leaves as CheckLeaves};
ghost use Rattle.cmd_load.specs.cmd_check.specs.Exact.{IsExact as CheckIsExact};
ghost use Rattle.cmd_check32.specs.cmd_descriptions.specs.Outcome.{LeavesFor as CheckLeavesFor};
ghost use Rattle.cmd_check32.specs.cmd_descriptions.specs.Exact.{IsExactFor as CheckIsExactFor};
ghost use Rattle.cmd_check32.specs.Machine.{the_l32};
ghost use Rattle.cmd_load.specs.cmd_compile.specs.Passing.{passing, AreKept};
ghost use Rattle.cmd_load.specs.cmd_compile.specs.Outcome.{files, FailAtMost, Leaves as CompileLeaves};
ghost use Rattle.cmd_load.specs.cmd_compile.specs.Exact.{IsExact as CompileIsExact};
ghost use Rattle.cmd_load.specs.Outcome.{Leaves as LoadLeaves, MayCome as LoadMayCome};
ghost use Rattle.cmd_load.specs.Exact.{IsExact as LoadIsExact};
ghost use Rattle.cmd_run.specs.Texts.{text_form, code_runner};
ghost use Rattle.cmd_run32.specs.Texts.{text_form as text_form32, code_runner as code_runner32};
ghost use Rattle.cmd_meaning.specs.Sources.{source_form, source_runner};
ghost use Rattle.cmd_image.specs.Texts.{image_of_text};
ghost use Rattle.cmd_text.specs.Images.{text_of_image};

use cmd_check32::check_description32;
use cmd_image::write_image;
use cmd_load::{Pass, check_description, compile_source, load_generated};
use cmd_meaning::run_source;
use cmd_run::run_text;
use cmd_run32::run_text32;
use cmd_session::{Command, Status, command_of, refuse};
use cmd_text::write_text;
use gg_outside::{Folder, Sink, Source};
use std::alloc::Global;

// The command `compile D S`: names are not empty.
fn compile<F: Folder, O: Sink, E: Sink>(
    alloc: Global,
    description: &str,
    source: &str,
    folder: &mut F,
    out: &mut O,
    report: &mut E,
    passes: &mut Vec<Box<dyn Pass>>,
) -> Status
    requires named { (0 < length description.now) × (0 < length source.now) }
    ensures leaves { CompileLeaves (passing (λ p n c e. wrote p n c e) (λ p. made p) passes.old.items passes.new.items)
        result (files description.now source.now)
        (outside F.Folder O.Sink E.Sink folder.old folder.new out.old out.new report.old report.new) }
    ensures exact { CompileIsExact result (files description.now source.now)
        (outside F.Folder O.Sink E.Sink folder.old folder.new out.old out.new report.old report.new) }
    ensures names { FailAtMost (files description.now source.now) (lookup F.Folder folder.old folder.new) }
    ensures holds { (n : List ℕ) → F.holds folder.new n ≡ F.holds folder.old n }
    ensures kept { AreKept (λ p. p.vtable) (λ p. made p) passes.old.items passes.new.items }
{
    compile_source(alloc, description, source, folder, out, report, passes)
}

/// The whole program: the command that the words say, or the line of the usage. Its commands are `check D`, `compile D S`, `run A N`,
/// `meaning S N`, `load D K`, `image A` and `text I`, and of L32 `check32 D` and `run32 A N`. What `compile` writes does, read again and
/// run, what the source does: until the source makes a wild access or nests over `ACTIVE_CALL_LIMIT` calls.
pub fn ggvax<F: Folder, I: Source, O: Sink, E: Sink>(
    alloc: Global,
    words: &[String],
    folder: &mut F,
    input: &mut I,
    out: &mut O,
    report: &mut E,
    passes: &mut Vec<Box<dyn Pass>>,
) -> Status
    // `check D`: what each status says of the machine description, of its tables and rules and what is written, and that each comes
    // where its cause is there.
    ensures check { (d : List ℕ) → SaysCheck (spelled words.now) d
        → CheckLeaves result d (outside F.Folder O.Sink E.Sink folder.old folder.new out.old out.new report.old report.new) }
    ensures check_exact { (d : List ℕ) → SaysCheck (spelled words.now) d
        → CheckIsExact result d (outside F.Folder O.Sink E.Sink folder.old folder.new out.old out.new report.old report.new) }

    // `compile D S`: the same of the machine description, of the source and of the text. Where a text is written, it is that of one code,
    // to which the passes lead from the source's, each by what it says of itself. It loads and on every input does what the source does;
    // and a source whose functions fit their frames has one.
    ensures compile { (d source : List ℕ) → SaysCompile (spelled words.now) d source
        → CompileLeaves (passing (λ p n c e. wrote p n c e) (λ p. made p) passes.old.items passes.new.items) result (files d source)
        (outside F.Folder O.Sink E.Sink folder.old folder.new out.old out.new report.old report.new) }
    ensures compile_exact { (d source : List ℕ) → SaysCompile (spelled words.now) d source
        → CompileIsExact result (files d source)
        (outside F.Folder O.Sink E.Sink folder.old folder.new out.old out.new report.old report.new) }

    // `run A N`: the same of the text, of its code's run with N steps on the input, and of what was taken of the input.
    ensures run { (text : List ℕ) (count : ℕ) → SaysRun (spelled words.now) text count
        → Leaves text_form code_runner result (call_of text count (intake I.Source input.old input.new)
        (outside F.Folder O.Sink E.Sink folder.old folder.new out.old out.new report.old report.new)) }
    ensures run_exact { (text : List ℕ) (count : ℕ) → SaysRun (spelled words.now) text count
        → IsExact text_form code_runner result (call_of text count (intake I.Source input.old input.new)
        (outside F.Folder O.Sink E.Sink folder.old folder.new out.old out.new report.old report.new)) }

    // `meaning S N`: the same of the source, of its run by its meaning with at most N counted turns and calls, and of the input.
    ensures meaning { (source : List ℕ) (count : ℕ) → SaysMeaning (spelled words.now) source count
        → Leaves source_form source_runner result (call_of source count (intake I.Source input.old input.new)
        (outside F.Folder O.Sink E.Sink folder.old folder.new out.old out.new report.old report.new)) }
    ensures meaning_exact { (source : List ℕ) (count : ℕ) → SaysMeaning (spelled words.now) source count
        → IsExact source_form source_runner result (call_of source count (intake I.Source input.old input.new)
        (outside F.Folder O.Sink E.Sink folder.old folder.new out.old out.new report.old report.new)) }

    // `load D K`: the same of the machine description, and of the generated source of K functions, of its text by the passes and of what
    // both sides' runs came to; and that no other status comes.
    ensures load { (d : List ℕ) (k : ℕ) → SaysLoad (spelled words.now) d k
        → LoadLeaves (passing (λ p n c e. wrote p n c e) (λ p. made p) passes.old.items passes.new.items) result d k
        (outside F.Folder O.Sink E.Sink folder.old folder.new out.old out.new report.old report.new) }
    ensures load_comes { (d : List ℕ) (k : ℕ) → SaysLoad (spelled words.now) d k → LoadMayCome result }
    ensures load_exact { (d : List ℕ) (k : ℕ) → SaysLoad (spelled words.now) d k
        → LoadIsExact result d (outside F.Folder O.Sink E.Sink folder.old folder.new out.old out.new report.old report.new) }

    // `image A`: the same of the text and of the binary image of its code, and that the folder is asked for A alone.
    ensures image { (text : List ℕ) → SaysImage (spelled words.now) text → IsTranslated image_of_text result text
        (outside F.Folder O.Sink E.Sink folder.old folder.new out.old out.new report.old report.new) }

    // `text I`: the same of the binary image I and of the text of its code.
    ensures text { (image : List ℕ) → SaysText (spelled words.now) image → IsTranslated text_of_image result image
        (outside F.Folder O.Sink E.Sink folder.old folder.new out.old out.new report.old report.new) }

    // `check32 D`: as `check D`, of a machine description of L32, whose rules are shown on L32.
    ensures check32 { (d : List ℕ) → SaysCheck32 (spelled words.now) d
        → CheckLeavesFor the_l32 result d (outside F.Folder O.Sink E.Sink folder.old folder.new out.old out.new report.old report.new) }
    ensures check32_exact { (d : List ℕ) → SaysCheck32 (spelled words.now) d
        → CheckIsExactFor the_l32 result d (outside F.Folder O.Sink E.Sink folder.old folder.new out.old out.new report.old report.new) }

    // `run32 A N`: as `run A N`, of a text of L32 and of the run of its code.
    ensures run32 { (text : List ℕ) (count : ℕ) → SaysRun32 (spelled words.now) text count
        → Leaves text_form32 code_runner32 result (call_of text count (intake I.Source input.old input.new)
        (outside F.Folder O.Sink E.Sink folder.old folder.new out.old out.new report.old report.new)) }
    ensures run32_exact { (text : List ℕ) (count : ℕ) → SaysRun32 (spelled words.now) text count
        → IsExact text_form32 code_runner32 result (call_of text count (intake I.Source input.old input.new)
        (outside F.Folder O.Sink E.Sink folder.old folder.new out.old out.new report.old report.new)) }

    // Words that say no command, and these alone, are answered by the usage; nothing else is touched.
    ensures usage { result ≡ Status.Usage → SaysNone (spelled words.now) }
    ensures usage_line { SaysNone (spelled words.now)
        → IsRefused Status.Usage usage_line result (change E.Sink report.old report.new) }
    ensures usage_out { SaysNone (spelled words.now) → IsUntouched (change O.Sink out.old out.new) }
    ensures usage_names { SaysNone (spelled words.now) → F.failed folder.new ≡ F.failed folder.old }

    // The folder is asked for the command's names alone. `input` is read by `run`, `meaning` and `run32` alone, one byte beyond its
    // limit at most.
    ensures check_names { (d : List ℕ) → SaysCheck (spelled words.now) d
        → FailsAtMost d (lookup F.Folder folder.old folder.new) }
    ensures compile_names { (d source : List ℕ) → SaysCompile (spelled words.now) d source
        → FailAtMost (files d source) (lookup F.Folder folder.old folder.new) }
    ensures run_names { (text : List ℕ) (count : ℕ) → SaysRun (spelled words.now) text count
        → FailsAtMost text (lookup F.Folder folder.old folder.new) }
    ensures meaning_names { (source : List ℕ) (count : ℕ) → SaysMeaning (spelled words.now) source count
        → FailsAtMost source (lookup F.Folder folder.old folder.new) }
    ensures load_names { (d : List ℕ) (k : ℕ) → SaysLoad (spelled words.now) d k
        → FailsAtMost d (lookup F.Folder folder.old folder.new) }
    ensures check32_names { (d : List ℕ) → SaysCheck32 (spelled words.now) d
        → FailsAtMost d (lookup F.Folder folder.old folder.new) }
    ensures run32_names { (text : List ℕ) (count : ℕ) → SaysRun32 (spelled words.now) text count
        → FailsAtMost text (lookup F.Folder folder.old folder.new) }
    ensures holds { (n : List ℕ) → F.holds folder.new n ≡ F.holds folder.old n }
    ensures check_input { (d : List ℕ) → SaysCheck (spelled words.now) d → input.new ≡ input.old }
    ensures compile_input { (d source : List ℕ) → SaysCompile (spelled words.now) d source → input.new ≡ input.old }
    ensures load_input { (d : List ℕ) (k : ℕ) → SaysLoad (spelled words.now) d k → input.new ≡ input.old }
    ensures image_input { (text : List ℕ) → SaysImage (spelled words.now) text → input.new ≡ input.old }
    ensures text_input { (image : List ℕ) → SaysText (spelled words.now) image → input.new ≡ input.old }
    ensures check32_input { (d : List ℕ) → SaysCheck32 (spelled words.now) d → input.new ≡ input.old }
    ensures usage_input { SaysNone (spelled words.now) → input.new ≡ input.old }
    ensures taken { TakesAtMost (input_limit + 1) (intake I.Source input.old input.new) }

    // The list holds the same passes in the same order, and no one's number of changes fell. `compile` and `load` alone call them.
    ensures kept { AreKept (λ p. p.vtable) (λ p. made p) passes.old.items passes.new.items }
    ensures check_passes { (d : List ℕ) → SaysCheck (spelled words.now) d → passes.new.items ≡ passes.old.items }
    ensures run_passes { (text : List ℕ) (count : ℕ) → SaysRun (spelled words.now) text count → passes.new.items ≡ passes.old.items }
    ensures meaning_passes { (source : List ℕ) (count : ℕ) → SaysMeaning (spelled words.now) source count
        → passes.new.items ≡ passes.old.items }
    ensures image_passes { (text : List ℕ) → SaysImage (spelled words.now) text → passes.new.items ≡ passes.old.items }
    ensures text_passes { (image : List ℕ) → SaysText (spelled words.now) image → passes.new.items ≡ passes.old.items }
    ensures check32_passes { (d : List ℕ) → SaysCheck32 (spelled words.now) d → passes.new.items ≡ passes.old.items }
    ensures run32_passes { (text : List ℕ) (count : ℕ) → SaysRun32 (spelled words.now) text count → passes.new.items ≡ passes.old.items }
    ensures usage_passes { SaysNone (spelled words.now) → passes.new.items ≡ passes.old.items }
{
    let Some(command) = command_of(words) else {
        return refuse(
            report,
            b"ggvax: usage: check D | compile D S | run A N | meaning S N | load D K | image A | text I | check32 D | run32 A N\n",
            Status::Usage,
        );
    };
    match command {
        Command::Check(description) => check_description(alloc, description, folder, out, report),
        Command::Compile(description, source) => {
            compile(alloc, description, source, folder, out, report, passes)
        }
        Command::Run(text, count) => run_text(alloc, text, count, folder, input, out, report),
        Command::Meaning(source, count) => {
            run_source(alloc, source, count, folder, input, out, report)
        }
        Command::Load(description, functions) => {
            load_generated(alloc, description, functions, folder, out, report, passes)
        }
        Command::Image(text) => write_image(alloc, text, folder, out, report),
        Command::Text(image) => write_text(alloc, image, folder, out, report),
        Command::Check32(description) => {
            check_description32(alloc, description, folder, out, report)
        }
        Command::Run32(text, count) => run_text32(alloc, text, count, folder, input, out, report),
    }
}
