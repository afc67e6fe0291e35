// How the commands are called.
use std::alloc::AllocError;

// A command: its name, the words behind it, and what it tells.
#[derive(Clone, Copy)]
struct Help {
    name: &'static str,
    words: &'static str,
    told: &'static str,
}

static COMMANDS: [Help; 7] = [
    Help {
        name: "why",
        words: "NAME",
        told: "Why the file is refused: each refusal with its line, what is wrong there, and the way out.\n\
         A name that ends with .c is a C source, .gg a description, .s an assembly text and .img a\n\
         binary image. Of another name the first word tells: version begins a description, .data a\n\
         text; all else is a C source.\n",
    },
    Help {
        name: "trees",
        words: "S",
        told: "The trees of the C source S, function by function, with the frame words of each.\n",
    },
    Help {
        name: "rules",
        words: "D [S]",
        told: "Each rule of the description D: its line, what its pattern does, what its template does,\n\
         both in normal form, and how many registers it needs. With S also how often the trees of\n\
         that C source take it.\n",
    },
    Help {
        name: "sets",
        words: "D",
        told: "The item sets of the description D, each with where it leads.\n",
    },
    Help {
        name: "dot",
        words: "D",
        told: "The item sets of the description D as a graph: ggdesk dot D | dot -Tsvg >sets.svg\n",
    },
    Help {
        name: "parse",
        words: "D",
        told: "The parse of trees by the description D, step by step, and the stack where it stops. The\n\
         trees come from the input, one a line, as tokens in prefix order: Ret Minus Const Const.\n\
         Rules with if lines are answered yes; Const=yn answers those that begin at this token,\n\
         first yes, then no.\n",
    },
    Help {
        name: "code",
        words: "D S",
        told: "The statements of the C source S, their trees, the rules of the description D that each\n\
         takes, with their lines in D, and the code, side by side.\n",
    },
];

fn put_call(told: &mut String, command: Help) -> Result<(), AllocError> {
    writeln!(told, "ggdesk {} {}", command.name, command.words)
}

fn command_named(name: &str) -> Option<&'static Help> {
    COMMANDS.iter().find(|command| command.name == name)
}

/// Adds how one command is called, and what it tells.
pub fn put_help(told: &mut String, name: &str) -> Result<(), AllocError> {
    match command_named(name) {
        Some(command) => {
            put_call(told, *command)?;
            told.push_str(command.told)
        }
        None => put_usage(told),
    }
}

/// Adds what is wrong with a call that is no command's, by its first word.
pub fn put_wrong_call(told: &mut String, name: &str) -> Result<(), AllocError> {
    match command_named(name) {
        Some(command) => {
            write!(told, "ggdesk: {name} is called with other words: ")?;
            put_call(told, *command)
        }
        None => writeln!(told, "ggdesk: no command is called {name}"),
    }
}

/// Adds how all commands are called.
pub fn put_usage(told: &mut String) -> Result<(), AllocError> {
    told.push_str("ggdesk says what the parts of the compiler make of a file.\n\n")?;
    for command in &COMMANDS {
        put_call(told, *command)?;
    }
    told.push_str("ggdesk COMMAND --help\n\n")?;
    told.push_str(
        "Without words, or with the name of a subject alone, it reads a script: docs/desk.md.\n",
    )
}
