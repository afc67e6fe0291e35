//! The parse by a description's rules, whoever answers its questions, and what is true of each. Each function does nothing; its
//! clause is the law.
#![tactic(auto)]

ghost use Rattle.lr_check_parse.specs.Moves.{Answering};
ghost use Rattle.lr_check_parse.specs.Claims.{IsOneWay, IsBounded, HasEnd, IsByLists, IsAnswered, LeavesAreTokens};

/// Who answers the questions of a parse, and what is kept beside its stack.
pub trait Answers {
    /// What comes with a token.
    type Leaf;

    /// What is kept beside the stack of symbols, of which no value is made.
    type Kept;

    ghost answering: { Answering Self.Leaf Self.Kept };
}

/// A parse has one list of moves and one end.
pub fn parses_end_one_way<A: Answers>(_answers: &A)
    ensures { IsOneWay A.answering }
{}

/// It makes at most so many moves.
pub fn parses_are_bounded<A: Answers>(_answers: &A)
    ensures { IsBounded A.answering }
{}

/// By the tables of a description each list of leaves has one.
pub fn parses_end<A: Answers>(_answers: &A)
    ensures { HasEnd A.answering }
{}

/// Where it isn't refused, it is the parse by the answers that it gave.
pub fn parses_are_answered<A: Answers>(_answers: &A)
    ensures { IsAnswered A.answering }
{}

/// The parse with lists of answers is the one that a sample is replayed by.
pub fn replays_are_by_lists()
    ensures { IsByLists }
{}

/// The leaves of a typed statement tree have the tokens of one.
pub fn leaves_are_tokens()
    ensures { LeavesAreTokens }
{}
