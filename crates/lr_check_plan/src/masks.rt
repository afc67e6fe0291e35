// Sets of tokens, as bits by their numbers.
use lr_check_found::may;
use lr_tables::number;
use tree_core::{Sort, Tok, tokens};

/// The token alone.
pub fn bit(token: Tok) -> u64 {
    let at = number(token);
    if at < 64 { 1 << at } else { 0 }
}

/// Whether the token is in the set.
pub fn has(set: u64, token: Tok) -> bool {
    set & bit(token) != 0
}

/// The first token of the set, in table order.
pub fn first_of(set: u64) -> Option<Tok> {
    match tokens().get(set.trailing_zeros() as usize) {
        Some(token) => Some(*token),
        None => None,
    }
}

/// The set without its first token.
pub fn without_first(set: u64) -> u64 {
    set & set.wrapping_sub(1)
}

/// The tokens that may begin a tree of the sort.
pub fn beginnings(wanted: Sort) -> u64 {
    let mut set = 0;
    for token in tokens() {
        if may(*token, wanted) {
            set |= bit(*token);
        }
    }
    set
}
