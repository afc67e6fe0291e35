// What words ask for.

/// A question.
#[derive(Clone, Copy)]
pub enum Ask<'a> {
    /// Why a file is refused.
    Why(&'a str),
    /// The trees of a source.
    Trees(&'a str),
    /// The rules of a description, and how often a source's trees take them.
    Rules(&'a str, Option<&'a str>),
    /// The item sets of a description.
    Sets(&'a str),
    /// The same for Graphviz.
    Dot(&'a str),
    /// The parse of the input's trees by a description.
    Parse(&'a str),
    /// The trees of a source with the rules of a description and the code.
    Code(&'a str, &'a str),
    /// How the commands are called, or one of them.
    Help(Option<&'a str>),
}

// The question of a command and the name of one file.
fn of_one<'a>(command: &str, name: &'a str) -> Option<Ask<'a>> {
    match command {
        "why" => Some(Ask::Why(name)),
        "trees" => Some(Ask::Trees(name)),
        "rules" => Some(Ask::Rules(name, None)),
        "sets" => Some(Ask::Sets(name)),
        "dot" => Some(Ask::Dot(name)),
        "parse" => Some(Ask::Parse(name)),
        _ => None,
    }
}

// The question of a command and the names of two files.
fn of_two<'a>(command: &str, first: &'a str, second: &'a str) -> Option<Ask<'a>> {
    match command {
        "rules" => Some(Ask::Rules(first, Some(second))),
        "code" => Some(Ask::Code(first, second)),
        _ => None,
    }
}

/// What the words ask for; None where they are no command's.
pub fn ask_of(words: &[String]) -> Option<Ask<'_>> {
    match words {
        [help] => (help.as_str() == "--help").then_some(Ask::Help(None)),
        [command, help] if help.as_str() == "--help" => Some(Ask::Help(Some(command.as_str()))),
        [help, command] if help.as_str() == "--help" => Some(Ask::Help(Some(command.as_str()))),
        [command, name] => of_one(command.as_str(), name.as_str()),
        [command, first, second] => { of_two(command.as_str(), first.as_str(), second.as_str()) }
        _ => None,
    }
}
