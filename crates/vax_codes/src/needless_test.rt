// A pass that drops tests of what was just computed.
ghost use Rattle.std.specs.Prelude.{◌≡◌, ◌≤◌, ◌&&◌, ◌∷◌, ℕ, suc, Bool, List, OnOk, false, slice_index_or};
ghost use Rattle.std.specs.Option.{option_copied};
ghost use Rattle.vax_core.specs.declared.code.CodeItem.{CodeItem};
ghost use Rattle.vax_core.specs.Ops.{shape};
ghost use Rattle.vax_machine.specs.Functions.{action_of};
ghost use Rattle.vax_passes.specs.Dropping.{all_kept};
ghost use Rattle.vax_codes.specs.Needless.{is_written, is_long, ends_written, last_operand, function_clears, is_plain_base, is_plain};
ghost use Rattle.vax_codes.specs.Testing.{computes, is_last, tests_result, is_needless, last_item, without_tests};

use crate::reading::carry_places;
use gg_base::{ListOf, NoMemory, Size};
use std::alloc::Global;
use vax_core::{Access, Base, Code, CodeItem, Instr, Op, Operand, OperandKind};
use vax_machine::function::{Action, Function, action_of};
use vax_passes::Pass;

/// Drops each `tstl` of what the instruction kept before it has computed, where C was 0 behind that or isn't read behind the test, as long
/// as it can count them.
#[derive(Drop)]
pub struct NeedlessTest {
    alloc: Global,
    made: u64,
}

fn clears_carry(function: Function) -> bool
    ensures { result ≡ function_clears function }
{
    matches!(
        function,
        Function::SignExtend(_)
            | Function::Truncate(_)
            | Function::Multiply
            | Function::Divide
            | Function::Shift
            | Function::CompareWithZero(_)
    )
}

fn is_plain_base(base: &Base) -> bool
    ensures { result ≡ is_plain_base base.now }
{
    matches!(
        base,
        Base::Reg(_) | Base::Def(_) | Base::Disp(_, _) | Base::Abs(_) | Base::Rel(_)
    )
}

fn is_plain(operand: &Operand) -> bool
    ensures { result ≡ is_plain operand.now }
{
    operand.index.is_none() && is_plain_base(&operand.base)
}

fn is_long_result(kind: OperandKind) -> bool
    ensures { result ≡ (is_written kind.access && is_long kind.size) }
{
    matches!(kind.access, Access::Modify | Access::Write) && matches!(kind.size, Size::Long)
}

// Whether an instruction writes or changes a longword last.
fn ends_written(op: Op) -> bool
    ensures { result ≡ ends_written (shape op).operands }
{
    match op.shape().operands.last() {
        Some(kind) => is_long_result(*kind),
        None => false,
    }
}

// Whether an instruction's last operand is this one.
fn is_last(operand: &Operand, writer: &Instr) -> bool
    ensures { result ≡ is_last operand.now (last_operand writer.now.operands) }
{
    match writer.operands.as_slice().last() {
        Some(last) => operand.same(last),
        None => false,
    }
}

// Whether an instruction computes, with C 0 behind it or not read behind the test.
fn computes(writer: &Instr, read: bool) -> bool
    ensures { result ≡ computes (action_of writer.now.op) read }
{
    match action_of(writer.op) {
        Action::Compute(function) => clears_carry(function) || !read,
        _ => false,
    }
}

fn tests_result(operands: &[Operand], writer: &Instr, read: bool) -> bool
    ensures { result ≡ tests_result operands.now writer.now read }
{
    match operands {
        [operand] => {
            is_plain(operand)
                && computes(writer, read)
                && ends_written(writer.op)
                && is_last(operand, writer)
        }
        _ => false,
    }
}

// Whether an item tests what the one before it has computed; whether C may be read behind it is given.
fn is_needless(item: &CodeItem, before: Option<&CodeItem>, read: bool) -> bool
    ensures { result ≡ is_needless item.now (option_copied before.entry) read }
{
    let CodeItem::Instr(test) = item else {
        return false;
    };
    let Some(CodeItem::Instr(writer)) = before else {
        return false;
    };
    matches!(test.op, Op::Tstl) && tests_result(test.operands.as_slice(), writer, read)
}

fn read_at(reads: &[bool], place: usize) -> bool
    ensures { result ≡ slice_index_or reads.now place false }
{
    match reads.get(place) {
        Some(read) => *read,
        None => false,
    }
}

impl NeedlessTest {
    /// A pass that has made no changes.
    pub fn new(alloc: Global) -> NeedlessTest
        ensures { result.made ≡ 0 }
    {
        NeedlessTest { alloc, made: 0 }
    }

    // One item more behind what is kept: it is kept, or dropped and counted. Whether C may be read behind it is given.
    fn keep(&mut self, kept: &mut Vec<CodeItem>, item: CodeItem, read: bool) -> Result<(), NoMemory>
        ensures kept { OnOk result ((reads : ℕ → Bool) (place : ℕ) (rest : List CodeItem) → reads (suc place) ≡ read
            → all_kept kept.new.items (without_tests reads rest (suc place) (last_item kept.new.items) self.new.made)
            ≡ all_kept kept.old.items (without_tests reads (item ∷ rest) place (last_item kept.old.items) self.old.made)) }
        ensures rises { self.old.made ≤ self.new.made }
    {
        if self.made < u64::MAX && is_needless(&item, kept.last(), read) {
            self.made += 1;
            return Ok(());
        }
        kept.push(item)?;
        Ok(())
    }
}

impl Pass for NeedlessTest {
    ghost use Rattle.vax_codes.specs.Testing.{DropsNeedlessTests};

    ghost made = { λ p. p.made };

    ghost wrote = { λ p n c d. DropsNeedlessTests p.made n c d };

    fn rewrite(&mut self, code: Code) -> Result<Code, NoMemory> {
        let Code { area, items } = code;
        let reads = carry_places(self.alloc, items.as_slice())?;
        let mut left = items.into_vec();
        left.reverse();
        let mut kept = Vec::new(self.alloc);
        let mut place = 0;
        while let Some(item) = left.pop() {
            place += 1;
            let read = read_at(&reads, place);
            self.keep(&mut kept, item, read)?;
        }
        Ok(Code {
            area,
            items: ListOf::from_vec(kept),
        })
    }

    fn changes(&self) -> u64 {
        self.made
    }
}
