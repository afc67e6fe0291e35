// A reduction, in its order.
ghost use Rattle.std.specs.Prelude.{◌≡◌, ◌++◌, [], ◌+◌, ◌-◌, ◌<◌, ◌≤◌, ◌^◌, true, false, Some, OnOk, IfOk};
ghost use Rattle.std.specs.Prelude.{slice_get, slice_set};
ghost use Rattle.gg_base.specs.declared.limits.TheConstants.{NEED_LIMIT};
ghost use Rattle.md_reader.specs.declared.types.Give.TheVariants as give;
ghost use Rattle.sel_target.specs.declared.attr.Attr.TheVariants as attr;
ghost use Rattle.sel_target.specs.Instances.{hole};
ghost use Rattle.sel_target.specs.SavingLaws.{reloading};
ghost use Rattle.sel_target.specs.Symbols.{first_hole, reload_line};
ghost use Rattle.sel_parse_desk.specs.Entries.{kind_in, slot_in};
ghost use Rattle.sel_parse_desk.specs.Spills.{due};
ghost use Rattle.sel_parse_desk.specs.Desk.{set_apart, bind, Done};
ghost use Rattle.sel_parse_desk.specs.Reductions.{reloaded_at, reloaded, own_register, own_number, shaped};
ghost use Rattle.sel_parse_desk.specs.Reductions.{finished, with_result, with_scratch, given_by, reduced};
ghost use Rattle.sel_parse_desk.specs.Selected.{shifted};
ghost use Rattle.sel_parse_desk.specs.Joined.{is_low};
ghost use Rattle.sel_parse_desk.specs.Mirror.{desk_of, in_setting, stack_of, filled_lines, Does, IsReady};

use crate::desk::{Desk, DeskFault, Setting};
use crate::entries::Entries;
use crate::questions::{alone_in, constant_of};
use crate::spills::due;
use crate::stack::{Stack, part, push};
use crate::tally::Tally;
use gg_base::NoMemory;
use md_reader::{Give, Kind, Line, Piece, Rule, kind_at};
use sel_target::{Attr, Templates, hole};
use tree_core::{Leaf, TreeProgram};

/// Before the first token.
pub fn begin<T: Templates>(setting: &Setting<T>) -> Result<Desk<T::Operand, T::Instr>, NoMemory>
    requires { setting.now.first ≤ NEED_LIMIT }
    ensures start { IfOk result (λ k. stack_of k ≡ record { entries = []; code = []; most = setting.now.first }) }
    ensures ready { IfOk result (λ k. IsReady T.meaning k) }
{
    let tally = Tally::new(setting.alloc)?;
    let entries = Entries::new(setting.alloc);
    Ok(Desk {
        stack: Stack {
            entries,
            tally,
            settled: 0,
        },
        symbols: Entries::new(setting.alloc),
        late: Vec::new(setting.alloc),
        code: Vec::new(setting.alloc),
        most: setting.first,
    })
}

/// A token comes on the stack and stands for itself.
pub fn shift<T: Templates>(
    setting: &Setting<T>,
    desk: &mut Desk<T::Operand, T::Instr>,
    leaf: Leaf,
) -> Result<(), NoMemory>
    requires ready { IsReady T.meaning desk.old }
    ensures done { OnOk result (shifted leaf (Some (stack_of desk.old)) ≡ Some (stack_of desk.new)) }
    ensures ready { OnOk result (IsReady T.meaning desk.new) }
{
    push(setting.target, &mut desk.stack, None, Attr::Token(leaf))
}

// The line follows that brings a word back to a register.
fn reload_line<T: Templates>(
    setting: &Setting<T>,
    word: u32,
    register: u8,
    code: &mut Vec<T::Instr>,
) -> Result<(), NoMemory>
    requires { word < NEED_LIMIT }
    ensures { OnOk result (code.new.items ≡ code.old.items ++ reloading T.meaning setting.now.program.now
        (reload_line setting.now.description.now) word register) }
{
    setting.description.is_valid();
    let line = &setting.description.spills()[7];
    let slot = alone_in(setting.alloc, Attr::Value(setting.target.slot(word)))?;
    let zero = Attr::Reg(register);
    let instr = setting
        .target
        .instr(setting.alloc, setting.program, line, &slot, &zero)?;
    code.push(instr)?;
    Ok(())
}

// The symbol at a place, if one is there, is in a register.
fn put_register<O: Drop>(entries: &mut Entries<O>, at: usize, register: u8)
    ensures { entries.new ≡ slice_set entries.old at (record { kind = kind_in (slice_get entries.old at); attr = attr.Reg register }) }
{
    if at < entries.len() {
        entries.put(at, Attr::Reg(register));
    }
}

// The symbol at a place, if it stands in a slot, is brought back.
fn reload<T: Templates>(
    setting: &Setting<T>,
    desk: &mut Desk<T::Operand, T::Instr>,
    at: usize,
) -> Result<(), DeskFault>
    requires ready { IsReady T.meaning desk.old }
    ensures done { Does result (in_setting T.meaning setting.now reloaded_at at (desk_of desk.old)
        (slot_in (slice_get (desk_of desk.old).symbols at))) (desk_of desk.new) }
    ensures ready { OnOk result (IsReady T.meaning desk.new) }
{
    let Some(word) = desk.symbols.slot(at) else {
        return Ok(());
    };
    let register = due(setting, desk, false)?;
    reload_line(setting, word, register, &mut desk.code)?;
    desk.late.push(word)?;
    put_register(&mut desk.symbols, at, register);
    Ok(())
}

// So many symbols from a place on that stand in slots are brought back, from left to right.
#[tactic(auto, using(crate::proofs::Reloading::reload_fails, crate::proofs::Reloading::reload_fails_on))]
fn reload_all<T: Templates>(
    setting: &Setting<T>,
    desk: &mut Desk<T::Operand, T::Instr>,
    count: usize,
    at: usize,
) -> Result<(), DeskFault>
    requires few { at + count < 2 ^ 64 }
    requires ready { IsReady T.meaning desk.old }
    ensures done { Does result (in_setting T.meaning setting.now reloaded count at (desk_of desk.old)) (desk_of desk.new) }
    ensures ready { OnOk result (IsReady T.meaning desk.new) }
{
    if count == 0 {
        return Ok(());
    }
    reload(setting, desk, at)?;
    reload_all(setting, desk, count - 1, at + 1)
}

// A rule's lines follow with their holes filled.
fn write_lines<T: Templates>(
    setting: &Setting<T>,
    lines: &[Line],
    holes: &[Attr<T::Operand>],
    zero: &Attr<T::Operand>,
    code: &mut Vec<T::Instr>,
) -> Result<(), NoMemory>
    ensures { OnOk result (code.new.items ≡ code.old.items ++ filled_lines T.meaning setting.now.program.now lines.now holes.now
        zero.now) }
{
    for line in lines {
        let instr = setting
            .target
            .instr(setting.alloc, setting.program, line, holes, zero)?;
        code.push(instr)?;
    }
    Ok(())
}

// The lines follow, and what the rule gives stands for its symbols.
fn finish<T: Templates>(
    setting: &Setting<T>,
    desk: &mut Desk<T::Operand, T::Instr>,
    rule: &Rule,
    zero: &Attr<T::Operand>,
    given: Attr<T::Operand>,
) -> Result<(), NoMemory>
    requires low { is_low given ≡ true }
    requires ready { IsReady T.meaning desk.old }
    ensures done { OnOk result (in_setting T.meaning setting.now finished rule.now zero.now given (desk_of desk.old)
        ≡ Done (stack_of desk.new)) }
    ensures ready { OnOk result (IsReady T.meaning desk.new) }
{
    let lines = rule.lines.as_slice();
    write_lines(setting, lines, desk.symbols.attrs(), zero, &mut desk.code)?;
    let kind = kind_at(setting.description.classes(), rule.left);
    push(setting.target, &mut desk.stack, kind, given)
}

fn first_hole(pieces: &[Piece]) -> u8
    ensures { result ≡ first_hole pieces.now }
{
    match pieces.first() {
        Some(Piece::Hole(number)) => *number,
        _ => 0,
    }
}

fn own_register<O>(holes: &[Attr<O>], number: u8) -> Attr<O>
    ensures own { result ≡ own_register (hole holes.now number) }
    ensures low { is_low result ≡ true }
{
    match hole(holes, number) {
        Some(Attr::Reg(register)) => Attr::Reg(*register),
        _ => Attr::Nothing,
    }
}

fn own_number<O>(program: &TreeProgram, holes: &[Attr<O>], number: u8) -> Attr<O>
    ensures own { result ≡ own_number program.now (hole holes.now number) }
    ensures low { is_low result ≡ true }
{
    let Some(attr) = hole(holes, number) else {
        return Attr::Nothing;
    };
    match constant_of(program, attr) {
        Some(number) => Attr::Con(number),
        None => Attr::Nothing,
    }
}

// What a shape gives, by the kind of the rule's class.
fn shaped<T: Templates>(
    setting: &Setting<T>,
    kind: Option<Kind>,
    shape: &Line,
    holes: &[Attr<T::Operand>],
) -> Result<Attr<T::Operand>, NoMemory>
    ensures given { IfOk result (λ a. a ≡ in_setting T.meaning setting.now shaped kind shape.now holes.now) }
    ensures low { IfOk result (λ a. is_low a ≡ true) }
{
    let first = first_hole(shape.pieces.as_slice());
    match kind {
        Some(Kind::Reg) => Ok(own_register(holes, first)),
        Some(Kind::Con) => Ok(own_number(setting.program, holes, first)),
        Some(Kind::Value(_)) => Ok(Attr::Value(operand(setting, shape, holes)?)),
        Some(Kind::Place(_)) => Ok(Attr::Place(operand(setting, shape, holes)?)),
        Some(Kind::Ea) => Ok(Attr::Ea(operand(setting, shape, holes)?)),
        _ => Ok(Attr::Nothing),
    }
}

fn operand<T: Templates>(
    setting: &Setting<T>,
    shape: &Line,
    holes: &[Attr<T::Operand>],
) -> Result<T::Operand, NoMemory>
    ensures { IfOk result (λ o. o ≡ T.meaning.operand setting.now.program.now shape.now holes.now) }
{
    setting
        .target
        .operand(setting.alloc, setting.program, shape, holes)
}

// The rule gives a register, or takes one for its lines alone.
fn give_register<T: Templates>(
    setting: &Setting<T>,
    desk: &mut Desk<T::Operand, T::Instr>,
    rule: &Rule,
    given: bool,
) -> Result<(), DeskFault>
    requires ready { IsReady T.meaning desk.old }
    ensures done { Does result (bind (in_setting T.meaning setting.now due given (desk_of desk.old))
        (in_setting T.meaning setting.now with_result rule.now)) (stack_of desk.new) }
    ensures ready { OnOk result (IsReady T.meaning desk.new) }
{
    let register = due(setting, desk, given)?;
    let zero = Attr::Reg(register);
    finish(setting, desk, rule, &zero, Attr::Reg(register))?;
    Ok(())
}

fn give_scratch<T: Templates>(
    setting: &Setting<T>,
    desk: &mut Desk<T::Operand, T::Instr>,
    rule: &Rule,
) -> Result<(), DeskFault>
    requires ready { IsReady T.meaning desk.old }
    ensures done { Does result (bind (in_setting T.meaning setting.now due false (desk_of desk.old))
        (in_setting T.meaning setting.now with_scratch rule.now)) (stack_of desk.new) }
    ensures ready { OnOk result (IsReady T.meaning desk.new) }
{
    let register = due(setting, desk, false)?;
    let zero = Attr::Reg(register);
    finish(setting, desk, rule, &zero, Attr::Nothing)?;
    Ok(())
}

fn give_shape<T: Templates>(
    setting: &Setting<T>,
    desk: &mut Desk<T::Operand, T::Instr>,
    rule: &Rule,
    shape: &Line,
) -> Result<(), NoMemory>
    requires ready { IsReady T.meaning desk.old }
    ensures done { OnOk result (in_setting T.meaning setting.now given_by rule.now (give.Shape shape.now) (desk_of desk.old)
        ≡ Done (stack_of desk.new)) }
    ensures ready { OnOk result (IsReady T.meaning desk.new) }
{
    let kind = kind_at(setting.description.classes(), rule.left);
    let given = shaped(setting, kind, shape, desk.symbols.attrs())?;
    finish(setting, desk, rule, &Attr::Nothing, given)
}

fn give<T: Templates>(
    setting: &Setting<T>,
    desk: &mut Desk<T::Operand, T::Instr>,
    rule: &Rule,
) -> Result<(), DeskFault>
    requires ready { IsReady T.meaning desk.old }
    ensures done { Does result (in_setting T.meaning setting.now given_by rule.now rule.now.give (desk_of desk.old)) (stack_of desk.new) }
    ensures ready { OnOk result (IsReady T.meaning desk.new) }
{
    match &rule.give {
        Give::Fresh => give_register(setting, desk, rule, false),
        Give::Reuse => give_register(setting, desk, rule, true),
        Give::Scratch => give_scratch(setting, desk, rule),
        Give::Nothing => {
            finish(setting, desk, rule, &Attr::Nothing, Attr::Nothing)?;
            Ok(())
        }
        Give::Shape(shape) => {
            give_shape(setting, desk, rule, shape)?;
            Ok(())
        }
    }
}

// The top entries, so many of them, are those of the rule's symbols.
fn set_apart<T: Templates>(
    setting: &Setting<T>,
    desk: &mut Desk<T::Operand, T::Instr>,
    size: usize,
) -> Result<(), NoMemory>
    requires ready { IsReady T.meaning desk.old }
    ensures apart { OnOk result (desk_of desk.new ≡ set_apart size (stack_of desk.old)) }
    ensures ready { OnOk result (IsReady T.meaning desk.new) }
{
    desk.symbols = part(setting.target, &mut desk.stack, size)?;
    desk.late.clear();
    Ok(())
}

/// A reduction by a rule, whose symbols are on top of the stack.
pub fn reduce<T: Templates>(
    setting: &Setting<T>,
    desk: &mut Desk<T::Operand, T::Instr>,
    rule: &Rule,
) -> Result<(), DeskFault>
    requires ready { IsReady T.meaning desk.old }
    ensures done { Does result (in_setting T.meaning setting.now reduced rule.now (stack_of desk.old)) (stack_of desk.new) }
    ensures ready { OnOk result (IsReady T.meaning desk.new) }
{
    let size = rule.right.as_slice().len();
    set_apart(setting, desk, size)?;
    reload_all(setting, desk, size, 0)?;
    give(setting, desk, rule)
}
