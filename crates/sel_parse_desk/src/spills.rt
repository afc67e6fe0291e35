// A register that is due.
ghost use Rattle.std.specs.Prelude.{◌≡◌, ◌==◌, ◌∷◌, ◌++◌, [], ◌<◌, ◌≤◌, true, Some, length, OnOk, IfOk, IfSome};
ghost use Rattle.std.specs.Prelude.{option_to_list, slice_get};
ghost use Rattle.std.specs.List.{list_any};
ghost use Rattle.gg_base.specs.declared.limits.TheConstants.{NEED_LIMIT};
ghost use Rattle.sel_target.specs.SavingLaws.{saving};
ghost use Rattle.sel_target.specs.Symbols.{saving_place, saving_line};
ghost use Rattle.sel_parse_desk.specs.Entries.{kind_in, word_of};
ghost use Rattle.sel_parse_desk.specs.Desk.{is_free_register, free_register, is_free_word, free_slot};
ghost use Rattle.sel_parse_desk.specs.Spills.{in_slot, victim, spilled, due, Below, Among};
ghost use Rattle.sel_parse_desk.specs.Joined.{is_low, attr_in};
ghost use Rattle.sel_parse_desk.specs.Mirror.{desk_of, in_setting, saved_line, Gives, Does, IsReady};

use crate::desk::{Desk, DeskFault, Setting};
use crate::entries::Entries;
use crate::holding::{REGISTERS, first_to_go, is_in, register_held, word_held, word_of};
use crate::stack::{deepest, put};
use gg_base::limits::NEED_LIMIT;
use gg_base::{NoMemory, Size};
use md_reader::{Kind, Line};
use sel_target::{Attr, Templates};

#[tactic(auto, using(crate::proofs::Tallies::register_tells))]
fn is_free_register<T: Templates>(
    setting: &Setting<T>,
    desk: &Desk<T::Operand, T::Instr>,
    given: bool,
    register: u8,
) -> bool
    requires register { register < 12 }
    requires ready { IsReady T.meaning desk.now }
    ensures { result ≡ is_free_register T.meaning setting.now.description.now given (desk_of desk.now) register }
{
    is_in(setting.description.pool(), register)
        && !desk.stack.tally.holds_register(register)
        && (given || !register_held(setting.target, desk.symbols.attrs(), register))
}

fn free_register<T: Templates>(
    setting: &Setting<T>,
    desk: &Desk<T::Operand, T::Instr>,
    given: bool,
) -> Option<u8>
    requires ready { IsReady T.meaning desk.now }
    ensures { result ≡ free_register T.meaning setting.now.description.now given (desk_of desk.now) }
{
    (0..REGISTERS).find(
        |register|
            requires ready { IsReady T.meaning desk.now }
            requires small { register.now < 12 }
            ensures { result ≡ is_free_register T.meaning setting.entry.now.description.now given (desk_of desk.entry.now) register.now }
        { is_free_register(setting, desk, given, *register) },
    )
}

fn is_late(late: &[u32], word: u32) -> bool
    ensures { result ≡ list_any (λ v. v == word) late.now }
{
    late.iter().any(|own| *own == word)
}

#[tactic(auto, using(crate::proofs::Tallies::word_tells))]
fn is_free_word<T: Templates>(
    setting: &Setting<T>,
    desk: &Desk<T::Operand, T::Instr>,
    word: u32,
) -> bool
    requires word { word < NEED_LIMIT }
    requires ready { IsReady T.meaning desk.now }
    ensures { result ≡ is_free_word T.meaning (desk_of desk.now) word }
{
    !is_late(&desk.late, word)
        && !desk.stack.tally.holds_word(word)
        && !word_held(setting.target, desk.symbols.attrs(), word)
}

// The lowest frame word that may hold a value and doesn't.
fn free_slot<T: Templates>(setting: &Setting<T>, desk: &Desk<T::Operand, T::Instr>) -> Option<u32>
    requires ready { IsReady T.meaning desk.now }
    ensures word { result ≡ free_slot T.meaning setting.now.first (desk_of desk.now) }
    ensures small { IfSome result (λ w. w < NEED_LIMIT) }
{
    (setting.first..NEED_LIMIT).find(|word| is_free_word(setting, desk, *word))
}

fn saving_place(kind: Option<Kind>) -> usize
    ensures place { result ≡ saving_place kind }
    ensures within { result < 8 }
{
    match kind {
        Some(Kind::Value(Size::Byte)) => 0,
        Some(Kind::Value(Size::Word)) => 1,
        Some(Kind::Place(Size::Byte)) => 3,
        Some(Kind::Place(Size::Word)) => 4,
        Some(Kind::Place(Size::Long)) => 5,
        Some(Kind::Ea) => 6,
        _ => 2,
    }
}

fn saving_line<'a, T: Templates>(setting: &Setting<'a, T>, kind: Option<Kind>) -> &'a Line
    ensures { result.now ≡ saving_line setting.now.description.now kind }
{
    setting.description.is_valid();
    &setting.description.spills()[saving_place(kind)]
}

// What an attribute becomes in a slot.
fn in_slot<T: Templates>(target: &T, attr: &Attr<T::Operand>, word: u32) -> Attr<T::Operand>
    requires word { word < NEED_LIMIT }
    requires low { is_low attr.now ≡ true }
    ensures moved { result ≡ in_slot T.meaning attr.now word }
    ensures low { is_low result ≡ true }
{
    match attr {
        Attr::Reg(_) => Attr::InSlot(word),
        Attr::Value(_) => Attr::Value(target.slot(word)),
        Attr::Place(_) => Attr::Place(target.slot_deferred(word)),
        Attr::Ea(_) => Attr::Ea(target.slot_deferred(word)),
        Attr::InSlot(own) => Attr::InSlot(*own),
        Attr::Con(number) => Attr::Con(*number),
        Attr::Token(leaf) => Attr::Token(*leaf),
        Attr::Nothing => Attr::Nothing,
    }
}

// The line follows that saves an attribute, the only one of a list.
fn save_line<T: Templates>(
    setting: &Setting<T>,
    line: &Line,
    alone: &[Attr<T::Operand>],
    word: u32,
    code: &mut Vec<T::Instr>,
) -> Result<(), NoMemory>
    requires { word < NEED_LIMIT }
    ensures { OnOk result (code.new.items ≡ code.old.items ++ saved_line T.meaning setting.now.program.now line.now alone.now word ∷ []) }
{
    let slot = Attr::Place(setting.target.slot(word));
    let instr = setting
        .target
        .instr(setting.alloc, setting.program, line, alone, &slot)?;
    code.push(instr)?;
    Ok(())
}

// A frame word that is let go waits for the end of the reduction.
fn let_go(late: &mut Vec<u32>, word: Option<u32>) -> Result<(), NoMemory>
    ensures { OnOk result (late.new.items ≡ late.old.items ++ option_to_list word) }
{
    if let Some(word) = word {
        late.push(word)?;
    }
    Ok(())
}

// The entry at a place of some entries is saved in a word. The answer is what its attribute becomes.
fn save<T: Templates>(
    setting: &Setting<T>,
    entries: &Entries<T::Operand>,
    at: usize,
    word: u32,
    late: &mut Vec<u32>,
    code: &mut Vec<T::Instr>,
) -> Result<Attr<T::Operand>, NoMemory>
    requires word { word < NEED_LIMIT }
    requires within { at < length entries.now }
    ensures code { OnOk result (code.new.items ≡ code.old.items ++ saving T.meaning setting.now.program.now
        (saving_line setting.now.description.now (kind_in (slice_get entries.now at))) (attr_in (slice_get entries.now at)) word) }
    ensures late { OnOk result (late.new.items
        ≡ late.old.items ++ option_to_list (word_of T.meaning (attr_in (slice_get entries.now at)))) }
    ensures moved { IfOk result (λ a. a ≡ in_slot T.meaning (attr_in (slice_get entries.now at)) word) }
    ensures low { IfOk result (λ a. is_low a ≡ true) }
{
    let line = saving_line(setting, entries.kind(at));
    save_line(setting, line, entries.alone(at), word, code)?;
    let_go(late, word_of(setting.target, entries.attr(at)))?;
    Ok(in_slot(setting.target, entries.attr(at), word))
}

// The deepest entry that holds a register is saved.
fn save_below<T: Templates>(
    setting: &Setting<T>,
    desk: &mut Desk<T::Operand, T::Instr>,
    at: usize,
) -> Result<(), DeskFault>
    requires within { at < length desk.old.stack.entries }
    requires unsettled { desk.old.stack.settled ≤ at }
    requires ready { IsReady T.meaning desk.old }
    ensures done { Does result (in_setting T.meaning setting.now spilled (desk_of desk.old) (Some (Below at))) (desk_of desk.new) }
    ensures ready { OnOk result (IsReady T.meaning desk.new) }
{
    let Some(word) = free_slot(setting, desk) else {
        return Err(DeskFault::FrameFull);
    };
    let attr = save(
        setting,
        &desk.stack.entries,
        at,
        word,
        &mut desk.late,
        &mut desk.code,
    )?;
    put(setting.target, &mut desk.stack, at, attr);
    desk.most = desk.most.max(word + 1);
    Ok(())
}

// One of the rule's symbols is saved.
fn save_symbol<T: Templates>(
    setting: &Setting<T>,
    desk: &mut Desk<T::Operand, T::Instr>,
    at: usize,
) -> Result<(), DeskFault>
    requires within { at < length desk.old.symbols }
    requires ready { IsReady T.meaning desk.old }
    ensures done { Does result (in_setting T.meaning setting.now spilled (desk_of desk.old) (Some (Among at))) (desk_of desk.new) }
    ensures ready { OnOk result (IsReady T.meaning desk.new) }
{
    let Some(word) = free_slot(setting, desk) else {
        return Err(DeskFault::FrameFull);
    };
    let attr = save(
        setting,
        &desk.symbols,
        at,
        word,
        &mut desk.late,
        &mut desk.code,
    )?;
    desk.symbols.put(at, attr);
    desk.most = desk.most.max(word + 1);
    Ok(())
}

// The deepest entry that may go is saved.
fn spill<T: Templates>(
    setting: &Setting<T>,
    desk: &mut Desk<T::Operand, T::Instr>,
    given: bool,
) -> Result<(), DeskFault>
    requires ready { IsReady T.meaning desk.old }
    ensures done { Does result (in_setting T.meaning setting.now spilled (desk_of desk.old) (victim T.meaning given (desk_of desk.old)))
        (desk_of desk.new) }
    ensures ready { OnOk result (IsReady T.meaning desk.new) }
{
    if let Some(at) = deepest(setting.target, &mut desk.stack) {
        return save_below(setting, desk, at);
    }
    if given {
        return Err(DeskFault::NoRegister);
    }
    match first_to_go(setting.target, desk.symbols.attrs()) {
        Some(at) => save_symbol(setting, desk, at),
        None => Err(DeskFault::NoRegister),
    }
}

/// A register that is due: the lowest free one. Where none is free, an entry is saved first. The symbols' registers may have been
/// given back.
pub fn due<T: Templates>(
    setting: &Setting<T>,
    desk: &mut Desk<T::Operand, T::Instr>,
    given: bool,
) -> Result<u8, DeskFault>
    requires ready { IsReady T.meaning desk.old }
    ensures done { Gives result (in_setting T.meaning setting.now due given (desk_of desk.old)) (λ r. (r, desk_of desk.new)) }
    ensures ready { OnOk result (IsReady T.meaning desk.new) }
{
    if let Some(register) = free_register(setting, desk, given) {
        return Ok(register);
    }
    spill(setting, desk, given)?;
    free_register(setting, desk, given).ok_or(DeskFault::NoRegister)
}
