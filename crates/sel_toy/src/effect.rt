// What the toy machine's templates do.

ghost use Rattle.std.specs.Prelude.{◌≡◌, IfOk, IfErr, Ok};
ghost use Rattle.std.specs.Option.{option_map};
ghost use Rattle.sel_terms.specs.Effects.{act_of, effect_of};
ghost use Rattle.md_reader.specs.Patterns.{kind_at};
ghost use Rattle.sel_target.specs.Calls.{IsFaultOf};
ghost use Rattle.gg_base.specs.declared.size.Size.TheVariants as sizes;
ghost use Rattle.sel_target.specs.EffectTerms.{begins_with_save};
ghost use Rattle.sel_target.specs.Instances.{hole};
ghost use Rattle.sel_toy_machine.specs.declared.form.ShapeForm.TheVariants as shape_form;
ghost use Rattle.sel_target.specs.declared.fault.TargetFault.TheVariants as target_fault;
ghost use Rattle.sel_target.specs.declared.fault.TemplateKind.TheVariants as template_kind;
ghost use Rattle.sel_toy_machine.specs.Forms.{form_of, shape_of, is_sized};
ghost use Rattle.sel_toy_machine.specs.Templates.{undivided, where_true, sum, quotient, or_fault, gives_register, gives_nothing};
ghost use Rattle.sel_toy_machine.specs.Spills.{found_spill, spill_effect};
ghost use Rattle.sel_toy_machine.specs.Templates.{found_form, found_line};
ghost use Rattle.sel_toy_machine.specs.Templates.{holds_register, is_home, found_shape, effect};

use crate::forms::{form_of, shape_of};
use gg_base::{NoMemory, Size};
use md_reader::{Class, Give, Kind, Line, Rule, Sym, kind_at};
use sel_target::{TargetFault, TemplateKind, hole};
use sel_terms::{Act, Effect, Term, size_of_symbol};
use sel_toy_machine::{Form, ShapeForm};
use std::alloc::Global;
use term_core::{BinaryOp, binary};
use tree_core::Tok;

// Whether there is a symbol with this number, and its number has the size.
fn is_sized(classes: &[Class], right: &[Sym], size: Size, i: u8) -> bool
    ensures { result ≡ is_sized classes.now right.now size i }
{
    if i == 0 {
        return false;
    }
    match right.get(i as usize - 1) {
        Some(symbol) => size_of_symbol(classes, *symbol).bytes() == size.bytes(),
        None => false,
    }
}

fn is_long(classes: &[Class], right: &[Sym], i: u8) -> bool
    ensures { result ≡ is_sized classes.now right.now sizes.Long i }
{
    is_sized(classes, right, Size::Long, i)
}

fn symbol(right: &[Sym], i: u8) -> Option<Sym>
    ensures { result ≡ hole right.now i }
{
    hole(right, i).copied()
}

fn holds_register(classes: &[Class], symbol: Option<Sym>) -> bool
    ensures { result ≡ holds_register classes.now symbol }
{
    match symbol {
        Some(Sym::Class(class)) => matches!(kind_at(classes, class), Some(Kind::Reg)),
        _ => false,
    }
}

fn is_home(classes: &[Class], size: Size, symbol: Option<Sym>) -> bool
    ensures { result ≡ is_home classes.now size symbol }
{
    match symbol {
        Some(Sym::Tok(tok)) => matches!(tok, Tok::Loc | Tok::Arg) && size.bytes() == 4,
        Some(Sym::Class(class)) => match kind_at(classes, class) {
            Some(Kind::Place(z)) => z.bytes() == size.bytes(),
            _ => false,
        },
        None => false,
    }
}

fn gives_register(give: &Give) -> bool
    ensures { result ≡ gives_register give.now }
{
    matches!(give, Give::Fresh | Give::Reuse)
}

fn gives_nothing(give: &Give) -> bool
    ensures { result ≡ gives_nothing give.now }
{
    matches!(give, Give::Nothing | Give::Scratch)
}

fn begins_with_save(right: &[Sym]) -> bool
    ensures { result ≡ begins_with_save right.now }
{
    matches!(right.first(), Some(Sym::Tok(Tok::Save)))
}

fn undivided(alloc: Global, act: Act) -> Effect
    ensures { effect_of result ≡ undivided (act_of act) }
{
    Effect {
        act,
        divisors: Vec::new(alloc),
    }
}

fn sum(alloc: Global, i: u8, j: u8) -> Result<Effect, NoMemory>
    ensures { IfOk result (λ e. effect_of e ≡ sum i j) }
{
    let sum = binary(alloc, BinaryOp::Add, Term::V(i), Term::V(j))?;
    Ok(undivided(alloc, Act::Value(sum)))
}

fn quotient(alloc: Global, i: u8, j: u8) -> Result<Effect, NoMemory>
    ensures { IfOk result (λ e. effect_of e ≡ quotient i j) }
{
    let quotient = binary(alloc, BinaryOp::Div, Term::V(i), Term::V(j))?;
    let mut divisors = Vec::new(alloc);
    divisors.push(Term::V(j))?;
    Ok(Effect {
        act: Act::Value(quotient),
        divisors,
    })
}

fn where_true(test: bool, effect: Effect) -> Option<Effect>
    ensures { option_map effect_of result ≡ where_true test (effect_of effect) }
{
    if test { Some(effect) } else { None }
}

// An act that divides by nothing, where it may be done.
fn plain(alloc: Global, test: bool, act: Act) -> Option<Effect>
    ensures { option_map effect_of result ≡ where_true test (undivided (act_of act)) }
{
    where_true(test, undivided(alloc, act))
}

fn found_form(
    alloc: Global,
    rule: &Rule,
    classes: &[Class],
    form: Form,
) -> Result<Option<Effect>, NoMemory>
    ensures { IfOk result (λ o. option_map effect_of o ≡ found_form classes.now rule.now form) }
{
    let right = rule.right.as_slice();
    let value = gives_register(&rule.give);
    let statement = gives_nothing(&rule.give);
    Ok(match form {
        Form::Move(size, i) => {
            plain(
                alloc,
                value && is_sized(classes, right, size, i),
                Act::Value(Term::V(i)),
            )
        }
        Form::Address(_) => None,
        Form::Add(i, j) => where_true(
            value && (is_long(classes, right, i) && is_long(classes, right, j)),
            sum(alloc, i, j)?,
        ),
        Form::Divide(i, j) => {
            where_true(
                value && (is_long(classes, right, i) && is_long(classes, right, j)),
                quotient(alloc, i, j)?,
            )
        }
        Form::Store(size, i, j) => {
            let fits = is_home(classes, size, symbol(right, i)) && is_long(classes, right, j);
            plain(
                alloc,
                statement && fits,
                Act::StoreHome(size, i, Term::V(j)),
            )
        }
        Form::StoreAt(size, i, j) => {
            let fits = holds_register(classes, symbol(right, i)) && is_long(classes, right, j);
            plain(
                alloc,
                statement && fits,
                Act::StoreAt(size, Term::V(i), Term::V(j)),
            )
        }
        Form::Push(i) => plain(
            alloc,
            statement && is_long(classes, right, i),
            Act::Push(Term::V(i)),
        ),
        Form::Branch(i, j, k) => {
            let act = Act::Branch(i, Term::V(j), Term::V(k));
            plain(
                alloc,
                statement && (is_long(classes, right, j) && is_long(classes, right, k)),
                act,
            )
        }
        Form::Jump(i) => plain(alloc, statement && i == 1, Act::Jump),
        Form::Call(i) => plain(alloc, statement && i == 1, Act::Call),
        Form::Return(i) => plain(
            alloc,
            statement && is_long(classes, right, i),
            Act::Return(Term::V(i)),
        ),
        Form::Save(i) => plain(alloc, statement && begins_with_save(right), Act::Save(i)),
    })
}

fn found_line(
    alloc: Global,
    rule: &Rule,
    classes: &[Class],
    line: &Line,
) -> Result<Option<Effect>, NoMemory>
    ensures { IfOk result (λ o. option_map effect_of o ≡ found_line classes.now rule.now (form_of line.now.pieces)) }
{
    match form_of(line.pieces.as_slice()) {
        Some(form) => found_form(alloc, rule, classes, form),
        None => Ok(None),
    }
}

fn found_based(
    alloc: Global,
    classes: &[Class],
    right: &[Sym],
    kind: Option<Kind>,
    i: u8,
) -> Result<Option<Effect>, NoMemory>
    ensures { IfOk result (λ o. option_map effect_of o ≡ found_shape classes.now right.now kind (shape_form.Based i)) }
{
    let held = holds_register(classes, symbol(right, i));
    Ok(match kind {
        Some(Kind::Value(size)) => {
            let address = Box::new(alloc, Term::V(i))?;
            plain(alloc, held, Act::Value(Term::Mem(size, address)))
        }
        Some(Kind::Place(size)) => plain(alloc, held, Act::PlaceAt(size, Term::V(i))),
        Some(Kind::Ea) => plain(alloc, held, Act::Address(Term::V(i))),
        _ => None,
    })
}

fn found_alone(
    alloc: Global,
    classes: &[Class],
    right: &[Sym],
    kind: Option<Kind>,
    i: u8,
) -> Option<Effect>
    ensures { option_map effect_of result ≡ found_shape classes.now right.now kind (shape_form.Alone i) }
{
    match kind {
        Some(Kind::Reg) => {
            let held = holds_register(classes, symbol(right, i));
            plain(alloc, held, Act::Value(Term::V(i)))
        }
        Some(Kind::Con) => plain(alloc, is_long(classes, right, i), Act::Number(Term::V(i))),
        Some(Kind::Place(size)) => {
            let home = is_home(classes, size, symbol(right, i));
            plain(alloc, home, Act::PlaceHome(size, i))
        }
        _ => None,
    }
}

fn found_shape(
    alloc: Global,
    rule: &Rule,
    classes: &[Class],
    shape: &Line,
) -> Result<Option<Effect>, NoMemory>
    ensures { IfOk result (λ o. option_map effect_of o
        ≡ found_shape classes.now rule.now.right (kind_at classes.now rule.now.left) (shape_of shape.now.pieces)) }
{
    let kind = kind_at(classes, rule.left);
    let right = rule.right.as_slice();
    match shape_of(shape.pieces.as_slice()) {
        ShapeForm::Alone(i) => Ok(found_alone(alloc, classes, right, kind, i)),
        ShapeForm::Based(i) => found_based(alloc, classes, right, kind, i),
    }
}

fn fault_at(line: u32) -> TargetFault
    ensures { result ≡ target_fault.At line template_kind.NotInstr }
{
    TargetFault::At {
        line,
        kind: TemplateKind::NotInstr,
    }
}

fn or_fault(line: u32, found: Option<Effect>) -> Result<Effect, TargetFault>
    ensures found { IfOk result (λ e. or_fault line (option_map effect_of found) ≡ Ok (effect_of e)) }
    ensures fault { IfErr result (λ e. IsFaultOf e (or_fault line (option_map effect_of found))) }
{
    match found {
        Some(effect) => Ok(effect),
        None => Err(fault_at(line)),
    }
}

/// What a rule does.
pub fn effect(alloc: Global, rule: &Rule, classes: &[Class]) -> Result<Effect, TargetFault>
    ensures found { IfOk result (λ e. effect classes.now rule.now ≡ Ok (effect_of e)) }
    ensures fault { IfErr result (λ e. IsFaultOf e (effect classes.now rule.now)) }
{
    match rule.lines.as_slice().split_first() {
        Some((line, others)) => match others.first() {
            Some(other) => Err(fault_at(other.line)),
            None => or_fault(line.line, found_line(alloc, rule, classes, line)?),
        },
        None => match &rule.give {
            Give::Shape(shape) => or_fault(shape.line, found_shape(alloc, rule, classes, shape)?),
            _ => Err(fault_at(0)),
        },
    }
}

fn found_spill(alloc: Global, kind: Kind, form: Option<Form>) -> Option<Effect>
    ensures { option_map effect_of result ≡ found_spill kind form }
{
    match (kind, form) {
        (Kind::Value(size), Some(Form::Move(z, i))) => {
            let act = Act::StoreHome(size, 0, Term::V(1));
            plain(alloc, z.bytes() == size.bytes() && i == 1, act)
        }
        (Kind::Place(_) | Kind::Ea, Some(Form::Address(i))) => {
            plain(alloc, i == 1, Act::StoreHome(Size::Long, 0, Term::V(1)))
        }
        (Kind::Reg, Some(Form::Move(Size::Long, i))) => {
            plain(alloc, i == 1, Act::Value(Term::V(1)))
        }
        _ => None,
    }
}

/// What a line does that saves or reloads.
pub fn spill_effect(alloc: Global, kind: Kind, line: &Line) -> Result<Effect, TargetFault>
    ensures found { IfOk result (λ e. spill_effect kind line.now ≡ Ok (effect_of e)) }
    ensures fault { IfErr result (λ e. IsFaultOf e (spill_effect kind line.now)) }
{
    or_fault(
        line.line,
        found_spill(alloc, kind, form_of(line.pieces.as_slice())),
    )
}
