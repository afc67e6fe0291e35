// Rules with a dot, and symbols by number.
ghost use Rattle.std.specs.Prelude.{◌≡◌};
ghost use Rattle.lr_tables.specs.Symbols.{number, symbol_number};
ghost use Rattle.lr_tables.specs.Items.{next};

use md_reader::{Rule, Sym};
use tree_core::Tok;

/// The tokens, `End` included.
pub const TOKENS: usize = 40;

/// A rule with a dot before one of its symbols, or behind the last. No rule is the start, which is the
/// class of statements and `End`.
#[derive(Clone, Copy, Debug, PartialEq, Eq, Hash)]
pub struct Item {
    pub rule: Option<u16>,
    pub dot: u8,
}

/// The number of a token, in table order from 0.
pub fn number(token: Tok) -> usize
    ensures { result ≡ number token }
{
    token as usize
}

/// The number of a symbol: the tokens in table order, then the classes.
pub fn symbol_number(symbol: Sym) -> usize
    ensures { result ≡ symbol_number symbol }
{
    match symbol {
        Sym::Tok(token) => number(token),
        Sym::Class(class) => TOKENS + class as usize,
    }
}

/// The symbol behind the dot.
pub fn next_symbol(rules: &[Rule], stmt: u16, item: Item) -> Option<Sym>
    ensures { result ≡ next rules.now stmt item }
{
    match item.rule {
        None => {
            let start = [Sym::Class(stmt), Sym::Tok(Tok::End)];
            start.get(item.dot as usize).copied()
        }
        Some(number) => match rules.get(number as usize) {
            Some(rule) => rule.right.as_slice().get(item.dot as usize).copied(),
            None => None,
        },
    }
}
