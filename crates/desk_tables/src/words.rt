// The trees of `parse`: tokens in prefix order, each with its answers behind a `=`.
use gg_base::NoMemory;
use std::alloc::{AllocError, Global};
use tree_core::{Tok, tokens};

/// A token of a tree, and what the rules that begin at it are answered, in order: each question yes where nothing is said.
#[derive(Drop)]
pub struct Word {
    pub token: Tok,
    pub answers: Option<Vec<bool>>,
    /// How many of the answers were given.
    pub asked: usize,
}

impl Word {
    /// The next answer; no where the answers are used up.
    pub fn next_answer(&mut self) -> bool {
        let Some(answers) = &self.answers else {
            return true;
        };
        let answer = answers.get(self.asked).copied().unwrap_or(false);
        self.asked = self.asked.saturating_add(1);
        answer
    }
}

/// A line of the input: the words of a tree, or the number of the first word that is none, from 0.
#[derive(Drop)]
pub enum Tree {
    Words(Vec<Word>),
    Unknown(usize),
}

/// The token of this name.
pub fn token_named(name: &str) -> Option<Tok> {
    tokens().iter().copied().find(|token| token.name() == name)
}

// The answers that the letters `y` and `n` say. None where there is another letter.
fn answers_of(alloc: Global, letters: &str) -> Result<Option<Vec<bool>>, AllocError> {
    let mut answers = Vec::new(alloc);
    for letter in letters.bytes() {
        match letter {
            b'y' => answers.push(true)?,
            b'n' => answers.push(false)?,
            _ => return Ok(None),
        }
    }
    Ok(Some(answers))
}

// The word that is so written: a token, and behind a `=` its answers. None where no token is called so, or the answers are none.
fn word_of(alloc: Global, text: &str) -> Result<Option<Word>, AllocError> {
    let (name, letters) = match text.split_once('=') {
        Some((name, letters)) => (name, Some(letters)),
        None => (text, None),
    };
    let Some(token) = token_named(name) else {
        return Ok(None);
    };
    let answers = match letters {
        Some(letters) => answers_of(alloc, letters)?,
        None => None,
    };
    if letters.is_some() && answers.is_none() {
        return Ok(None);
    }
    Ok(Some(Word {
        token,
        answers,
        asked: 0,
    }))
}

/// The tree of a line.
pub fn tree_of(alloc: Global, line: &str) -> Result<Tree, NoMemory> {
    let mut words = Vec::new(alloc);
    for (number, text) in line.split_ascii_whitespace().enumerate() {
        match word_of(alloc, text)? {
            Some(word) => words.push(word)?,
            None => return Ok(Tree::Unknown(number)),
        }
    }
    Ok(Tree::Words(words))
}
