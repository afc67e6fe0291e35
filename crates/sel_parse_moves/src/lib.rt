//! What the moves of a parse do whose questions are answered by attributes. Each function does nothing; its clause is the law.
#![tactic(auto)]

ghost use Rattle.md_reader.specs.State.{Content};
ghost use Rattle.lr_check_parse.specs.Attributes.{Selecting};
ghost use Rattle.sel_parse_moves.specs.Interprets.{Interpreting};
ghost use Rattle.sel_parse_moves.specs.Told.{FactsJoin, RestrictionsTell};
ghost use Rattle.sel_parse_moves.specs.Claims.{TheyMeanTree, AlwaysAccepts};

/// Who keeps attributes beside the symbols of a parse, with a meaning.
pub trait Selector {
    /// What is kept, of which no value is made.
    type State;

    /// What stands beside a symbol.
    type Attribute;

    ghost selecting: { Selecting Self.State Self.Attribute };

    ghost interprets: { Interpreting selecting };
}

/// The moves of a parse that accepts do what the tree does.
pub fn moves_mean_tree<S: Selector>(_selector: &S)
    ensures { TheyMeanTree S.selecting S.interprets }
{}

/// By a checked description the parse of a typed statement accepts, unless the selection refuses.
pub fn parses_accept<S: Selector>(_selector: &S)
    ensures { (d : Content) → AlwaysAccepts S.selecting d }
{}

/// Where a rule's restrictions hold of the attributes, the numbers of its symbols are as its facts say.
pub fn restrictions_tell<S: Selector>(_selector: &S)
    ensures { RestrictionsTell S.selecting }
{}

/// Whatever is the same for symbols that are spelled alike is the same for those that the rule's facts call the same.
pub fn facts_join<S: Selector, Y>(_selector: &S, _any: &Y)
    ensures { FactsJoin S.selecting Y }
{}
