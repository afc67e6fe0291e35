// The words of the commands.
ghost use Rattle.std.specs.Prelude.{◌≡◌, IfSome, IfNone, ℕ, List};
ghost use Rattle.std.specs.Fmt.{decimal};
ghost use Rattle.cmd_session.specs.Words.{spelled, IsCount, SaysNamed, SaysPaired, SaysCounted, Says};
ghost use Rattle.cmd_session.specs.Choice.{NoCounted, SaysOnly, SaysNone};

use itoa::Buffer;

/// A command that is built.
#[derive(Clone, Copy)]
pub enum Command<'a> {
    /// `check D`: the tables of the machine description D.
    Check(&'a str),
    /// `compile D S`: the text of the source S by the machine description D.
    Compile(&'a str, &'a str),
    /// `run A N`: the run of the text A with at most N steps.
    Run(&'a str, u64),
    /// `meaning S N`: the run of the source S by its meaning, with at most N counted turns of loops and calls.
    Meaning(&'a str, u64),
    /// `load D K`: the generated source of K functions, compiled by the machine description D and run on both sides.
    Load(&'a str, u64),
    /// `image A`: the binary image of the text A's code.
    Image(&'a str),
    /// `text I`: the text of the code whose binary image is I.
    Text(&'a str),
    /// `check32 D`: the tables of the machine description D of L32.
    Check32(&'a str),
    /// `run32 A N`: the run of the text A of L32 with at most N steps.
    Run32(&'a str, u64),
}

/// The greatest number of steps that a command may ask for.
const GREATEST_COUNT: u64 = 1_000_000_000;

/// The greatest number of functions that a command may ask for.
const GREATEST_SIZE: u64 = 1_000;

// The number that a word is: from 1 to the greatest, in decimal digits without a leading zero.
fn count_of(word: &str, greatest: u64) -> Option<u64>
    ensures some { IfSome result (λ n. IsCount greatest n) }
    ensures spelled { IfSome result (λ n. word.now ≡ decimal n) }
    ensures none { IfNone result ((n : ℕ) → IsCount greatest n → word.now ≡ decimal n → ⊥) }
{
    let Ok(n) = word.parse::<u64>() else {
        return None;
    };
    if n == 0 || n > greatest || Buffer::new().format(n) != word {
        return None;
    }
    Some(n)
}

// The name of the words `WORD NAME`. Names are not empty.
fn named<'a>(words: &'a [String], word: &str) -> Option<&'a str>
    ensures some { IfSome result (λ name. SaysNamed word.now (spelled words.now) name.now) }
    ensures none { IfNone result ((name : List ℕ) → SaysNamed word.now (spelled words.now) name → ⊥) }
{
    match words {
        [first, name] if first.as_str() == word && !name.is_empty() => Some(name.as_str()),
        _ => None,
    }
}

// The two names of the words `WORD NAME NAME`. Names are not empty.
fn paired<'a>(words: &'a [String], word: &str) -> Option<(&'a str, &'a str)>
    ensures some { IfSome result (λ said. SaysPaired word.now (spelled words.now) said.0.now said.1.now) }
    ensures none { IfNone result ((one other : List ℕ) → SaysPaired word.now (spelled words.now) one other → ⊥) }
{
    match words {
        [first, one, other] if first.as_str() == word && !one.is_empty() && !other.is_empty() => {
            Some((one.as_str(), other.as_str()))
        }
        _ => None,
    }
}

// The name and the number of the words `WORD NAME N`. Names are not empty.
fn counted<'a>(words: &'a [String], word: &str, greatest: u64) -> Option<(&'a str, u64)>
    ensures some { IfSome result (λ said. SaysCounted word.now greatest (spelled words.now) said.0.now said.1) }
    ensures none { IfNone result (NoCounted word.now greatest (spelled words.now)) }
{
    match words {
        [first, name, count] if first.as_str() == word && !name.is_empty() => {
            let count = count_of(count.as_str(), greatest)?;
            Some((name.as_str(), count))
        }
        _ => None,
    }
}

/// The command that the words say. Names are not empty.
pub fn command_of(words: &[String]) -> Option<Command<'_>>
    ensures some { IfSome result (λ command. Says (spelled words.now) command) }
    ensures only { IfSome result (λ command. SaysOnly (spelled words.now) command) }
    ensures none { IfNone result (SaysNone (spelled words.now)) }
{
    if let Some(description) = named(words, "check") {
        return Some(Command::Check(description));
    }
    if let Some((description, source)) = paired(words, "compile") {
        return Some(Command::Compile(description, source));
    }
    if let Some((text, count)) = counted(words, "run", GREATEST_COUNT) {
        return Some(Command::Run(text, count));
    }
    if let Some((source, count)) = counted(words, "meaning", GREATEST_COUNT) {
        return Some(Command::Meaning(source, count));
    }
    if let Some((description, size)) = counted(words, "load", GREATEST_SIZE) {
        return Some(Command::Load(description, size));
    }
    if let Some(text) = named(words, "image") {
        return Some(Command::Image(text));
    }
    if let Some(image) = named(words, "text") {
        return Some(Command::Text(image));
    }
    if let Some(description) = named(words, "check32") {
        return Some(Command::Check32(description));
    }
    let (text, count) = counted(words, "run32", GREATEST_COUNT)?;
    Some(Command::Run32(text, count))
}
