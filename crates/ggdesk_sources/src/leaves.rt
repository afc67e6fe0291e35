// Leaves of trees as text: a token's name, and behind it in brackets what it stands with.
use gg_base::Rel;
use std::alloc::{AllocError, Global};
use tree_core::{Att, AttKind, Leaf, Sort, Tok, tokens};

static RELATIONS: [(&str, Rel); 10] = [
    ("Eq", Rel::Eq),
    ("Ne", Rel::Ne),
    ("Lt", Rel::Lt),
    ("Le", Rel::Le),
    ("Gt", Rel::Gt),
    ("Ge", Rel::Ge),
    ("Ltu", Rel::Ltu),
    ("Leu", Rel::Leu),
    ("Gtu", Rel::Gtu),
    ("Geu", Rel::Geu),
];

static SORTS: [(&str, Sort); 7] = [
    ("Stmt", Sort::Stmt),
    ("Long", Sort::Long),
    ("Word", Sort::Word),
    ("Byte", Sort::Byte),
    ("PlaceL", Sort::PlaceL),
    ("PlaceW", Sort::PlaceW),
    ("PlaceB", Sort::PlaceB),
];

fn token_named(name: &str) -> Option<Tok> {
    tokens().iter().copied().find(|tok| tok.name() == name)
}

fn relation_named(name: &str) -> Option<Rel> {
    RELATIONS
        .iter()
        .find_map(|(text, rel)| (*text == name).then_some(*rel))
}

/// The relation's name in a row.
pub fn relation_name(rel: Rel) -> &'static str {
    RELATIONS
        .iter()
        .find_map(|(text, other)| (*other == rel).then_some(*text))
        .unwrap_or("?")
}

/// The sort of this name.
pub fn sort_named(name: &str) -> Option<Sort> {
    SORTS
        .iter()
        .find_map(|(text, sort)| (*text == name).then_some(*sort))
}

/// The number that a word writes, or 0.
pub fn number(word: &str) -> u32 {
    word.parse::<u32>().unwrap_or(0)
}

fn attribute_alone(tok: Tok) -> Att {
    match tok.attribute() {
        AttKind::Own(n) => Att::Number(n),
        _ => Att::Nothing,
    }
}

fn attribute_of_one(tok: Tok, word: &str) -> Att {
    match tok {
        Tok::Const => Att::Number(number(word)),
        Tok::Jump => Att::Label(number(word)),
        _ => Att::Slot(number(word)),
    }
}

fn attribute_of_two(tok: Tok, first: &str, second: &str) -> Option<Att> {
    let second = number(second);
    Some(match tok {
        Tok::Gaddr => Att::Object {
            object: number(first),
            offset: second,
        },
        Tok::Call => Att::Callee {
            function: number(first),
            count: second,
        },
        _ => Att::Branch {
            rel: relation_named(first)?,
            label: second,
        },
    })
}

fn leaf_of(word: &str) -> Option<Leaf> {
    let Some((name, behind)) = word.split_once('[') else {
        let tok = token_named(word)?;
        let att = attribute_alone(tok);
        return Some(Leaf { tok, att });
    };
    let tok = token_named(name)?;
    let inner = behind.strip_suffix("]")?;
    let att = match inner.split_once(',') {
        None => attribute_of_one(tok, inner),
        Some((first, second)) => attribute_of_two(tok, first, second)?,
    };
    Some(Leaf { tok, att })
}

/// The leaves that the words name; a word that names none is left out.
pub fn leaves_of(alloc: Global, words: &str) -> Result<Vec<Leaf>, AllocError> {
    words.split(' ').filter_map(leaf_of).collect(alloc)
}
