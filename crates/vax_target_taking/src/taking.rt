// What an instruction takes of its operands, on terms.
ghost use Rattle.std.specs.Prelude.{◌≡◌, IfOk, Ok, map};
ghost use Rattle.std.specs.Option.{option_map};
ghost use Rattle.term_core.specs.Shape.{shape_of, Symbol};
ghost use Rattle.vax_core.specs.declared.op.Access.TheVariants as accesses;
ghost use Rattle.vax_templates.specs.Giving.{truncated};
ghost use Rattle.vax_templates.specs.HoleTerms.{own_value};
ghost use Rattle.vax_templates.specs.Taking.{taken_term, taken_read, taken_missized, sized, last_result, fetched};
ghost use Rattle.vax_templates.specs.Taking.{pointer_read, addressed, written, both, taken, evaluated};
ghost use Rattle.vax_templates.specs.Taking.{no_arguments, last_of, in_front};
ghost use Rattle.vax_templates.specs.Targets.{is_long, own_target, memory_target, zero_target, statement_target};
ghost use Rattle.vax_templates.specs.Targets.{targeted};
ghost use Rattle.vax_target_taking.specs.Answers.{Judges};
ghost use Rattle.vax_target_taking.specs.Stages.{taken_of_all};
ghost use Rattle.vax_target_taking.specs.Views.{where_of, term_of, target_of, taken_of, arguments_of, aimed};

use crate::heap::{boxed, copied};
use crate::standing::{Location, Template};
use gg_base::{NoMemory, Size};
use sel_terms::same_size;
use std::alloc::Global;
use term_core::{Term, UnaryOp, copy, unary};
use vax_core::{Access, OperandKind};
use vax_target_forms::refusal::{NOT_INSTR, Refusal};
use vax_templates::{Form, Opening, Own};

/// What is written: `%0`, the slot of a spill, the home of a symbol, memory, register 0, or the local of the last call's result.
#[derive(Drop)]
pub enum Destination {
    Own,
    Slot(Size),
    Home(Size, u8),
    Memory(Size, Box<Term>),
    RegisterZero,
    Saved(u8),
}

/// What an instruction takes of an operand: what is read or the address, the memory that is read for it, what is to be written, and whether
/// the operand has another size.
#[derive(Drop)]
pub struct Operand {
    pub term: Box<Term>,
    pub reads: Vec<Term>,
    pub destination: Option<Destination>,
    pub is_missized: bool,
}

/// What an instruction takes of all its operands.
#[derive(Drop)]
pub struct Operands {
    pub first: Box<Term>,
    pub second: Box<Term>,
    pub reads: Vec<Term>,
    pub destination: Option<Destination>,
    pub is_missized: bool,
}

/// Whether this is the size of a longword.
pub fn is_long(size: Size) -> bool
    ensures { result ≡ is_long size }
{
    match size {
        Size::Long => true,
        Size::Byte | Size::Word => false,
    }
}

/// A term that takes no memory to be read.
pub fn taken_term(alloc: Global, term: Box<Term>) -> Operand
    ensures { taken_of result ≡ taken_term (shape_of term.value) }
{
    Operand {
        term,
        reads: Vec::new(alloc),
        destination: None,
        is_missized: false,
    }
}

// The value of a symbol.
fn taken_symbol(alloc: Global, i: u8) -> Result<Operand, NoMemory>
    ensures { IfOk result (λ t. taken_of t ≡ taken_term (Symbol i)) }
{
    Ok(taken_term(alloc, boxed(alloc, Term::V(i))?))
}

fn taken_read(alloc: Global, term: Box<Term>) -> Result<Operand, NoMemory>
    ensures { IfOk result (λ t. taken_of t ≡ taken_read (shape_of term.value)) }
{
    let read = copy(alloc, &term)?;
    let mut reads = Vec::new(alloc);
    reads.push(read)?;
    Ok(Operand {
        term,
        reads,
        destination: None,
        is_missized: false,
    })
}

fn taken_missized(alloc: Global) -> Result<Operand, NoMemory>
    ensures { IfOk result (λ t. taken_of t ≡ taken_missized) }
{
    Ok(Operand {
        term: boxed(alloc, Term::K(0))?,
        reads: Vec::new(alloc),
        destination: None,
        is_missized: true,
    })
}

fn cut_term(alloc: Global, size: Size, t: Term) -> Result<Term, NoMemory>
    ensures { IfOk result (λ r. shape_of r ≡ truncated size (shape_of t)) }
{
    match size {
        Size::Byte => unary(alloc, UnaryOp::Zx8, t),
        Size::Word => unary(alloc, UnaryOp::Zx16, t),
        Size::Long => Ok(t),
    }
}

// A number or a register that is read at this size.
fn cut(alloc: Global, size: Size, t: Term) -> Result<Operand, NoMemory>
    ensures { IfOk result (λ r. taken_of r ≡ taken_term (truncated size (shape_of t))) }
{
    let t = cut_term(alloc, size, t)?;
    Ok(taken_term(alloc, boxed(alloc, t)?))
}

fn sized(alloc: Global, has: Size, wanted: Size, t: Operand) -> Result<Operand, NoMemory>
    ensures { IfOk result (λ r. taken_of r ≡ sized has wanted (taken_of t)) }
{
    if same_size(has, wanted) {
        Ok(t)
    } else {
        taken_missized(alloc)
    }
}

/// The pointer that was read for an address, if there is one.
pub fn pointer_read(alloc: Global, pointer: Option<Box<Term>>) -> Result<Vec<Term>, NoMemory>
    ensures { IfOk result (λ v. map shape_of v.items ≡ pointer_read (term_of pointer)) }
{
    let mut reads = Vec::new(alloc);
    if let Some(pointer) = pointer {
        reads.push(Box::into_inner(pointer))?;
    }
    Ok(reads)
}

fn own_target(own: Own, size: Size) -> Result<(Destination, bool), Refusal>
    ensures { Judges aimed result (own_target own size) }
{
    match own {
        Own::Register if is_long(size) => Ok((Destination::Own, false)),
        Own::Slot(has) => Ok((Destination::Slot(size), !same_size(has, size))),
        Own::Register | Own::Nothing => Err(NOT_INSTR),
    }
}

/// Memory that is written at an address: a line that saves writes nothing but the slot.
pub fn memory_target(own: Own, a: Box<Term>, size: Size) -> Result<(Destination, bool), Refusal>
    ensures { Judges aimed result (memory_target own (shape_of a.value) size) }
{
    match own {
        Own::Slot(_) => Err(NOT_INSTR),
        Own::Register | Own::Nothing => Ok((Destination::Memory(size, a), false)),
    }
}

/// Register 0 is written in a rule that returns.
pub fn zero_target(opening: Opening) -> Result<(Destination, bool), Refusal>
    ensures { Judges aimed result (zero_target opening) }
{
    match opening {
        Opening::Return => Ok((Destination::RegisterZero, false)),
        Opening::Save | Opening::Other => Err(NOT_INSTR),
    }
}

/// The arguments of an instruction without operands.
pub fn no_arguments(alloc: Global) -> Result<Operands, NoMemory>
    ensures { IfOk result (λ x. arguments_of x ≡ no_arguments) }
{
    let first = boxed(alloc, Term::K(0))?;
    let second = boxed(alloc, Term::K(0))?;
    Ok(Operands {
        first,
        second,
        reads: Vec::new(alloc),
        destination: None,
        is_missized: false,
    })
}

fn last_of(front: Option<Destination>, last: Option<Destination>) -> Option<Destination>
    ensures { option_map target_of result ≡ last_of (option_map target_of front) (option_map target_of last) }
{
    if let Some(destination) = last {
        return Some(destination);
    }
    front
}

/// What is taken of an operand that is written alone.
pub fn written(alloc: Global, target: (Destination, bool)) -> Result<Operand, NoMemory>
    ensures { IfOk result (λ t. written (aimed target) ≡ Ok (taken_of t)) }
{
    let term = boxed(alloc, Term::K(0))?;
    let (destination, is_missized) = target;
    Ok(Operand {
        term,
        reads: Vec::new(alloc),
        destination: Some(destination),
        is_missized,
    })
}

// What is read, with what is written.
fn both(taken: Operand, target: (Destination, bool)) -> Operand
    ensures { both (taken_of taken) (aimed target) ≡ Ok (taken_of result) }
{
    let (destination, is_missized) = target;
    Operand {
        term: taken.term,
        reads: taken.reads,
        destination: Some(destination),
        is_missized: taken.is_missized || is_missized,
    }
}

// The arguments with an operand in front of them.
fn in_front(taken: Operand, behind: Operands) -> Result<Operands, NoMemory>
    ensures { IfOk result (λ x. in_front (taken_of taken) (arguments_of behind) ≡ Ok (arguments_of x)) }
{
    let Operand {
        term,
        mut reads,
        destination,
        is_missized,
    } = taken;
    let Operands {
        first,
        reads: mut others,
        destination: last,
        is_missized: others_missized,
        ..
    } = behind;
    reads.append(&mut others)?;
    Ok(Operands {
        first: term,
        second: first,
        reads,
        destination: last_of(destination, last),
        is_missized: is_missized || others_missized,
    })
}

impl<'a> Template<'a> {
    fn last_result(self, zero: &Option<Box<Term>>, size: Size) -> Result<Operand, Refusal>
        ensures { Judges taken_of result (last_result self.entry.setting.opening (term_of zero.now) size) }
    {
        match (self.setting.opening, zero) {
            (Opening::Save, None) => Ok(cut(self.alloc, size, Term::Res)?),
            _ => Err(NOT_INSTR),
        }
    }

    /// What is read.
    #[tactic(auto, unfolding(vax_templates::specs::Taking::fetched))]
    pub fn fetched(
        self,
        zero: &Option<Box<Term>>,
        location: &Location,
        size: Size,
    ) -> Result<Operand, Refusal>
        ensures { Judges taken_of result (fetched self.entry.setting (term_of zero.now) (where_of location.now) size) }
    {
        let alloc = self.alloc;
        match location {
            Location::Number(t) => Ok(cut(alloc, size, copy(alloc, t)?)?),
            Location::Register(i) => Ok(cut(alloc, size, Term::V(*i))?),
            Location::Own => Ok(cut(alloc, size, Box::into_inner(self.own_value(zero)?))?),
            Location::RegisterZero => self.last_result(zero, size),
            Location::Value(has, i) => Ok(sized(alloc, *has, size, taken_symbol(alloc, *i)?)?),
            Location::Place(has, i) => {
                let t = boxed(alloc, Term::V(*i))?;
                Ok(sized(alloc, *has, size, taken_read(alloc, t)?)?)
            }
            Location::Local(i) => Ok(sized(alloc, Size::Long, size, taken_symbol(alloc, *i)?)?),
            Location::SavedPlace(has, i) => {
                let a = boxed(alloc, Term::V(*i))?;
                let t = boxed(alloc, Term::Mem(*has, a))?;
                Ok(sized(alloc, *has, size, taken_read(alloc, t)?)?)
            }
            Location::Saved(_) => Err(NOT_INSTR),
            Location::At(a, _) => {
                let a = copied(alloc, a)?;
                let t = boxed(alloc, Term::Mem(size, a))?;
                Ok(taken_read(alloc, t)?)
            }
        }
    }

    // The address that is taken.
    fn addressed(self, location: Location, size: Size) -> Result<Operand, Refusal>
        ensures { Judges taken_of result (addressed (where_of location) size) }
    {
        let alloc = self.alloc;
        match location {
            Location::At(term, pointer) => Ok(Operand {
                term,
                reads: pointer_read(alloc, pointer)?,
                destination: None,
                is_missized: false,
            }),
            Location::SavedPlace(has, i) => Ok(sized(alloc, has, size, taken_symbol(alloc, i)?)?),
            _ => Err(NOT_INSTR),
        }
    }

    #[tactic(auto, unfolding(vax_templates::specs::Targets::targeted))]
    fn targeted(self, location: Location, size: Size) -> Result<(Destination, bool), Refusal>
        ensures { Judges aimed result (targeted self.entry.setting (where_of location) size) }
    {
        match location {
            Location::Own => own_target(self.setting.own, size),
            location if self.setting.is_statement => self.statement_target(location, size),
            _ => Err(NOT_INSTR),
        }
    }

    fn statement_target(
        self,
        location: Location,
        size: Size,
    ) -> Result<(Destination, bool), Refusal>
        ensures { Judges aimed result (statement_target self.entry.setting (where_of location) size) }
    {
        match location {
            Location::Place(has, i) => Ok((Destination::Home(size, i), !same_size(has, size))),
            Location::Local(i) => Ok((Destination::Home(size, i), !is_long(size))),
            Location::Saved(i) => Ok((Destination::Saved(i), false)),
            Location::At(a, _) => memory_target(self.setting.own, a, size),
            Location::RegisterZero => zero_target(self.setting.opening),
            _ => Err(NOT_INSTR),
        }
    }

    // What is taken of an operand that is read and written.
    #[tactic(auto, unfolding(vax_templates::specs::Taking::taken))]
    fn modified(
        self,
        zero: &Option<Box<Term>>,
        location: Location,
        size: Size,
    ) -> Result<Operand, Refusal>
        ensures { Judges taken_of result (taken self.entry.setting (term_of zero.now) accesses.Modify (where_of location) size) }
    {
        let taken = self.fetched(zero, &location, size)?;
        let target = self.targeted(location, size)?;
        Ok(both(taken, target))
    }

    #[tactic(auto, unfolding(vax_templates::specs::Taking::taken))]
    fn taken(
        self,
        zero: &Option<Box<Term>>,
        access: Access,
        location: Location,
        size: Size,
    ) -> Result<Operand, Refusal>
        ensures { Judges taken_of result (taken self.entry.setting (term_of zero.now) access (where_of location) size) }
    {
        match access {
            Access::Read => self.fetched(zero, &location, size),
            Access::Modify => self.modified(zero, location, size),
            Access::Write => Ok(written(self.alloc, self.targeted(location, size)?)?),
            Access::Address => self.addressed(location, size),
            Access::Count => Err(NOT_INSTR),
        }
    }

    #[tactic(auto, unfolding(vax_templates::specs::Taking::evaluated))]
    fn evaluated(
        self,
        zero: &Option<Box<Term>>,
        kind: OperandKind,
        form: Form,
    ) -> Result<Operand, Refusal>
        ensures { Judges taken_of result (evaluated self.entry.setting self.entry.holes.now (term_of zero.now) kind form) }
    {
        let location = self.form_where(zero, form, kind.size)?;
        self.taken(zero, kind.access, location, kind.size)
    }

    /// What is taken of all operands.
    #[cycle(all_evaluated)]
    pub fn all_evaluated(
        self,
        zero: &Option<Box<Term>>,
        kinds: &[OperandKind],
        forms: &[Form],
    ) -> Result<Operands, Refusal>
        ensures { Judges arguments_of result (taken_of_all self.entry.setting self.entry.holes.now zero.now kinds.now forms.now) }
    {
        let [kind, kinds @ ..] = kinds else {
            return Ok(no_arguments(self.alloc)?);
        };
        let [form, forms @ ..] = forms else {
            return Err(NOT_INSTR);
        };
        let taken = self.evaluated(zero, *kind, *form)?;
        let behind = self.all_evaluated(zero, kinds, forms)?;
        Ok(in_front(taken, behind)?)
    }
}
