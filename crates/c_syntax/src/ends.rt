// Where the bodies of functions end.
ghost use Rattle.std.specs.Prelude.{◌≡◌, ◌<◌, IfOk};
ghost use Rattle.c_syntax.specs.Ends.{at_first, is_end, behind, body_ends};
ghost use Rattle.c_syntax.specs.Views.{braces};

use c_tokens::{Mark, Spanned, Token};
use gg_base::ListOf;
use std::alloc::{AllocError, Global};

// What is known of the braces before a token: how many are open, whether the first of them began a body, and whether a
// closing bracket stands directly before the token.
#[derive(Drop)]
struct Braces {
    open: usize,
    is_body: bool,
    behind_bracket: bool,
}

impl Braces {
    // Nothing stands before the first token.
    fn new() -> Braces
        ensures { braces result ≡ at_first }
    {
        Braces {
            open: 0,
            is_body: false,
            behind_bracket: false,
        }
    }

    // Whether the token ends a body.
    fn is_end(&self, kind: &Token) -> bool
        ensures { result ≡ is_end (braces self.now) kind.now }
    {
        matches!(kind, Token::Mark(Mark::CloseBrace)) && self.open == 1 && self.is_body
    }

    // What is known behind the token. The braces that are open are as many as tokens at most.
    fn pass(&mut self, kind: &Token)
        requires { self.old.open < 18446744073709551615 }
        ensures { braces self.new ≡ behind (braces self.old) kind.now }
    {
        match kind {
            Token::Mark(Mark::OpenBrace) => {
                if self.open == 0 {
                    self.is_body = self.behind_bracket;
                }
                self.open += 1;
            }
            Token::Mark(Mark::CloseBrace) => self.open = self.open.saturating_sub(1),
            _ => {}
        }
        self.behind_bracket = matches!(kind, Token::Mark(Mark::CloseParenthesis));
    }
}

/// The offsets of the `}` that end the bodies of functions, in order: of those that close an outermost `{` directly behind
/// a `)`.
#[tactic(auto, unfolding(crate::specs::Ends::body_ends))]
pub fn body_ends(alloc: Global, tokens: &[Spanned]) -> Result<ListOf<u32>, AllocError>
    ensures { IfOk result (λ ends. ends ≡ body_ends tokens.now) }
{
    let mut ends = Vec::new(alloc);
    let mut braces = Braces::new();
    for token in tokens {
        if braces.is_end(&token.kind) {
            ends.push(token.start)?;
        }
        braces.pass(&token.kind);
    }
    Ok(ListOf::from_vec(ends))
}
