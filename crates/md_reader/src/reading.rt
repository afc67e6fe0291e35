// Taking one line after the other.
ghost use Rattle.std.specs.Prelude.{◌≡◌, ◌≤◌, length, OnOk, Some, None};
ghost use Rattle.std.specs.Option.{option_map};
ghost use Rattle.md_reader_text.specs.Words.{words};
ghost use Rattle.md_reader_pieces.specs.Pieces.{text_of, pieces};
ghost use Rattle.md_reader.specs.RuleForms.{if_form, do_form, register_behind};
ghost use Rattle.md_reader.specs.Forms.{spill_form};
ghost use Rattle.md_reader.specs.HeadSteps.{is_stmt, has_stmt, class_step, stage_behind, spill_pieces, spill_text};
ghost use Rattle.md_reader.specs.HeadSteps.{spill_line, class_line};
ghost use Rattle.md_reader.specs.RuleSteps.{rule_step, if_step, do_pieces, do_text, shape_step, give_step, give_line};
ghost use Rattle.md_reader.specs.RuleSteps.{do_line, if_line};
ghost use Rattle.md_reader.specs.Steps.{step, line_step};

use crate::faults::{DescKind, LineFault};
use crate::forms::{
    class_form, do_form, give_form, if_form, is_target, is_version, plain_give, pool_form,
    register_behind, rule_form, spill_form,
};
use crate::patterns::{is_sorted, is_tree, kind_at, sort_of_symbol};
use crate::rows::{is_bare, line_fits, pieces_fit, plain_fits, restriction_fits, shape_fits};
use crate::symbols::{class_of, is_short, symbols_of};
use crate::types::{Class, Give, Kind, Lines, Restriction, Restrictions, Rule, Sym, Symbols};
use gg_base::Name;
use md_reader_pieces::{Line, Piece, Pieces, line_text, pieces};
use md_reader_text::is_word;
use md_types::{ExpandedLine, is_skipped};
use std::alloc::Global;

/// What may come next.
#[derive(Clone, Copy, Debug, PartialEq, Eq)]
pub enum Stage {
    Version,
    Target,
    Pool,
    /// A class, or the first spill line.
    Classes,
    /// A spill line that isn't the first, or the reload line.
    Spills,
    Rules,
    /// The other lines of a rule.
    Template,
}

/// What the lines so far have said; from `left` on, of the rule whose `give` line is to come.
#[derive(Drop)]
pub struct Reading {
    pub stage: Stage,
    pub pool: u16,
    pub classes: Vec<Class>,
    pub spills: Vec<Line>,
    pub rules: Vec<Rule>,
    pub left: u16,
    pub right: Vec<Sym>,
    pub restrictions: Vec<Restriction>,
    pub lines: Vec<Line>,
    /// Whether `%0` may stand in the template.
    pub register: bool,
    ghost few_classes: { length classes.items ≤ 64 },
}

fn is_stmt(class: &Class) -> bool
    ensures { result ≡ is_stmt class.now }
{
    is_word(class.name.as_slice(), "stmt") && matches!(class.kind, Kind::Nothing)
}

/// Whether the class `stmt` of statements is declared.
pub fn has_stmt(classes: &[Class]) -> bool
    ensures { result ≡ has_stmt classes.now }
{
    classes.iter().any(|class| is_stmt(class))
}

impl Reading {
    ghost use Rattle.md_reader.specs.View.{state, Stepped};

    fn class_step(&mut self, alloc: Global, name: &[u8], kind: Kind) -> Result<(), LineFault>
        ensures { Stepped result (state self.new) (class_step (state self.old) name.now kind) }
    {
        if self.classes.len() >= 64 {
            return Err(LineFault::Wrong(DescKind::Limit));
        }
        if class_of(&self.classes, name).is_some() {
            return Err(LineFault::Wrong(DescKind::Twice));
        }
        let name = Name::copy_of(alloc, name)?;
        self.classes.push(Class { name, kind })?;
        Ok(())
    }

    fn spill_pieces(&mut self, number: u32, pieces: Vec<Piece>) -> Result<(), LineFault>
        ensures { Stepped result (state self.new) (spill_pieces (state self.old) number (Some pieces.items)) }
    {
        if !line_fits(true, &[Sym::Class(0)], &pieces) {
            return Err(LineFault::Wrong(DescKind::BadHole));
        }
        if self.spills.len() == 7 {
            self.stage = Stage::Rules;
        } else {
            self.stage = Stage::Spills;
        }
        self.spills.push(Line {
            line: number,
            pieces: Pieces::from_vec(pieces),
        })?;
        Ok(())
    }

    fn spill_text(&mut self, alloc: Global, number: u32, line: &[u8]) -> Result<(), LineFault>
        ensures { Stepped result (state self.new) (spill_text (state self.old) number (text_of (words line.now))) }
    {
        let Some(text) = line_text(alloc, line)? else {
            return Err(LineFault::Wrong(DescKind::BadWord));
        };
        let read = pieces(alloc, &text)?;
        self.spill_pieces(number, read)
    }

    fn spill_line(&mut self, alloc: Global, number: u32, line: &[u8]) -> Result<(), LineFault>
        ensures { Stepped result (state self.new) (spill_line (state self.old) number (spill_form (words line.now))) }
    {
        let Some((saved, rest)) = spill_form(line) else {
            return Err(LineFault::Wrong(DescKind::BadWord));
        };
        if saved.number() != self.spills.len() {
            return Err(LineFault::Wrong(DescKind::BadWord));
        }
        if !has_stmt(&self.classes) {
            return Err(LineFault::Wrong(DescKind::MissingStmt));
        }
        self.spill_text(alloc, number, rest)
    }

    fn rule_step(
        &mut self,
        alloc: Global,
        class: &[u8],
        line: &[u8],
        behind: &[ExpandedLine],
    ) -> Result<(), LineFault>
        ensures { Stepped result (state self.new) (rule_step (state self.old) (register_behind behind.now)
            class.now (words line.now)) }
    {
        if self.rules.len() >= 1000 || !is_short(line) {
            return Err(LineFault::Wrong(DescKind::Limit));
        }
        let Some(left) = class_of(&self.classes, class) else {
            return Err(LineFault::Wrong(DescKind::UnknownClass));
        };
        let right = symbols_of(alloc, &self.classes, line)?;
        if !is_tree(&right) {
            return Err(LineFault::Wrong(DescKind::NotATree));
        }
        let Some(sort) = sort_of_symbol(&self.classes, Sym::Class(left)) else {
            return Err(LineFault::Wrong(DescKind::WrongSort));
        };
        if is_bare(&self.classes, &right) || !is_sorted(alloc, &self.classes, sort, &right)? {
            return Err(LineFault::Wrong(DescKind::WrongSort));
        }
        self.stage = Stage::Template;
        self.left = left;
        self.right = right;
        self.restrictions = Vec::new(alloc);
        self.lines = Vec::new(alloc);
        self.register = register_behind(behind);
        Ok(())
    }

    fn if_step(&mut self, restriction: Restriction) -> Result<(), LineFault>
        ensures { Stepped result (state self.new) (if_step (state self.old) restriction) }
    {
        if !self.lines.is_empty() {
            return Err(LineFault::Wrong(DescKind::BadWord));
        }
        if self.restrictions.len() >= 4 {
            return Err(LineFault::Wrong(DescKind::Limit));
        }
        if !restriction_fits(&self.classes, &self.right, restriction) {
            return Err(LineFault::Wrong(DescKind::BadIf));
        }
        self.restrictions.push(restriction)?;
        Ok(())
    }

    fn do_pieces(&mut self, number: u32, pieces: Vec<Piece>) -> Result<(), LineFault>
        ensures { Stepped result (state self.new) (do_pieces (state self.old) number (Some pieces.items)) }
    {
        if !line_fits(self.register, &self.right, &pieces) {
            return Err(LineFault::Wrong(DescKind::BadHole));
        }
        self.lines.push(Line {
            line: number,
            pieces: Pieces::from_vec(pieces),
        })?;
        Ok(())
    }

    fn do_text(&mut self, alloc: Global, number: u32, line: &[u8]) -> Result<(), LineFault>
        ensures { Stepped result (state self.new) (do_text (state self.old) number (text_of (words line.now))) }
    {
        let Some(text) = line_text(alloc, line)? else {
            return Err(LineFault::Wrong(DescKind::BadWord));
        };
        if self.lines.len() >= 8 {
            return Err(LineFault::Wrong(DescKind::Limit));
        }
        let read = pieces(alloc, &text)?;
        self.do_pieces(number, read)
    }

    fn end_rule(&mut self, alloc: Global, give: Give) -> Result<(), LineFault>
        ensures { Stepped result (state self.new) (Ok (ended_rule (state self.old) give)) }
    {
        let right = std::mem::replace(&mut self.right, Vec::new(alloc));
        let restrictions = std::mem::replace(&mut self.restrictions, Vec::new(alloc));
        let lines = std::mem::replace(&mut self.lines, Vec::new(alloc));
        self.rules.push(Rule {
            left: self.left,
            right: Symbols::from_vec(right),
            restrictions: Restrictions::from_vec(restrictions),
            lines: Lines::from_vec(lines),
            give,
        })?;
        self.stage = Stage::Rules;
        Ok(())
    }

    fn shape_step(&mut self, alloc: Global, number: u32, word: &[u8]) -> Result<(), LineFault>
        ensures { Stepped result (state self.new) (shape_step (state self.old) number (pieces word.now)) }
    {
        let read = pieces(alloc, word)?;
        if !pieces_fit(false, &self.right, &read) {
            return Err(LineFault::Wrong(DescKind::BadHole));
        }
        let left = kind_at(&self.classes, self.left);
        if !shape_fits(&self.classes, &self.right, left, &read) {
            return Err(LineFault::Wrong(DescKind::BadGive));
        }
        let shape = Line {
            line: number,
            pieces: Pieces::from_vec(read),
        };
        self.end_rule(alloc, Give::Shape(shape))
    }

    fn give_step(&mut self, alloc: Global, number: u32, word: &[u8]) -> Result<(), LineFault>
        ensures { Stepped result (state self.new) (give_line (state self.old) number (Some word.now)) }
    {
        let Some(give) = plain_give(word) else {
            return self.shape_step(alloc, number, word);
        };
        if !plain_fits(kind_at(&self.classes, self.left), &give) {
            return Err(LineFault::Wrong(DescKind::BadGive));
        }
        self.end_rule(alloc, give)
    }

    fn template_line(&mut self, alloc: Global, number: u32, line: &[u8]) -> Result<(), LineFault>
        ensures { Stepped result (state self.new) (if_line (state self.old) number (if_form (words line.now)) (words line.now)) }
    {
        if let Some(restriction) = if_form(line) {
            return self.if_step(restriction);
        }
        if let Some(rest) = do_form(line) {
            return self.do_text(alloc, number, rest);
        }
        match give_form(line) {
            Some(word) => self.give_step(alloc, number, word),
            None => Err(LineFault::Wrong(DescKind::BadWord)),
        }
    }

    /// Takes a line that says something; `target` is the word that its line must have.
    fn step(
        &mut self,
        alloc: Global,
        target: &[u8],
        number: u32,
        line: &[u8],
        behind: &[ExpandedLine],
    ) -> Result<(), LineFault>
        ensures { Stepped result (state self.new) (step target.now (state self.old) number (words line.now)
            (register_behind behind.now)) }
    {
        match self.stage {
            Stage::Version => {
                if !is_version(line) {
                    return Err(LineFault::Wrong(DescKind::BadWord));
                }
                self.stage = Stage::Target;
                Ok(())
            }
            Stage::Target => {
                if !is_target(target, line) {
                    return Err(LineFault::Wrong(DescKind::BadWord));
                }
                self.stage = Stage::Pool;
                Ok(())
            }
            Stage::Pool => match pool_form(line) {
                Some(pool) => {
                    self.stage = Stage::Classes;
                    self.pool = pool;
                    Ok(())
                }
                None => Err(LineFault::Wrong(DescKind::BadWord)),
            },
            Stage::Classes => match class_form(line) {
                Some((name, kind)) => self.class_step(alloc, name, kind),
                None => self.spill_line(alloc, number, line),
            },
            Stage::Spills => self.spill_line(alloc, number, line),
            Stage::Rules => match rule_form(line) {
                Some((class, rest)) => self.rule_step(alloc, class, rest, behind),
                None => Err(LineFault::Wrong(DescKind::BadWord)),
            },
            Stage::Template => self.template_line(alloc, number, line),
        }
    }

    fn take(
        &mut self,
        alloc: Global,
        target: &[u8],
        number: u32,
        line: &[u8],
        behind: &[ExpandedLine],
    ) -> Result<(), LineFault>
        ensures { Stepped result (state self.new) (line_step target.now (state self.old) number (words line.now)
            (register_behind behind.now)) }
    {
        if is_skipped(line) {
            return Ok(());
        }
        self.step(alloc, target, number, line, behind)
    }

    /// Takes a line; those behind it say whether a template may have `%0`.
    #[tactic(auto, using(crate::proofs::ValidLaws::line_fine))]
    pub fn line(
        &mut self,
        alloc: Global,
        target: &[u8],
        line: &ExpandedLine,
        behind: &[ExpandedLine],
    ) -> Result<(), LineFault>
        ensures stepped { Stepped result (state self.new) (line_step target.now (state self.old) line.now.from (words line.now.bytes)
            (register_behind behind.now)) }
        // What was read so far stays valid.
        ensures fine { OnOk result (IsFine (state self.old) (line.now ∷ behind.now) → IsFine (state self.new) behind.now) }
    {
        self.take(alloc, target, line.from, line.bytes.as_slice(), behind)
    }
}

ghost use Rattle.std.specs.Prelude.{Ok, ◌∷◌};
ghost use Rattle.md_reader.specs.Fine.{IsFine};
ghost use Rattle.md_reader.specs.RuleSteps.{ended_rule};
