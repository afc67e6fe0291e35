// The block of a function's memory locals, while its declarations are read.
ghost use Rattle.std.specs.Prelude.{◌≡◌, ◌≤◌, true, OnOk, IfOk};
ghost use Rattle.c_types.specs.Types.{size_of, is_scalar};
ghost use Rattle.c_types.specs.Answers.{Gives};
ghost use Rattle.c_typed_addressed.specs.Views.{marks};
ghost use Rattle.c_typed_definition.specs.Rooms.{room_for, is_next_addressed, is_parameter_addressed, one_declared, offset_in, taking};
ghost use Rattle.c_typed_definition.specs.Rooms.{with_parameter_in};
ghost use Rattle.c_typed_objects.specs.Views.{room, block_in};

use c_program::Declaration;
use c_typed_addressed::Addressed;
use c_types::fault::refuse;
use c_types::typed::BLOCK_LIMIT;
use c_types::{CType, Expression, Place, TypeFault, TypeKind, Variable};
use std::alloc::{AllocError, Global};

/// To which of its variables a function applies `&`, how many automatic locals it has declared, the bytes of its memory
/// locals so far, which count to one past their limit, and the stores of the parameters among them.
#[derive(Drop)]
pub struct Room {
    pub addressed: Addressed,
    pub declared: usize,
    pub length: u32,
    pub stores: Vec<Declaration>,
}

impl Room {
    /// Nothing is declared yet.
    pub fn new(alloc: Global, addressed: Addressed) -> Room
        ensures { room result ≡ room_for (marks addressed) }
    {
        Room {
            addressed,
            declared: 0,
            length: 0,
            stores: Vec::new(alloc),
        }
    }

    /// Whether `&` is applied to the next automatic local.
    pub fn is_next_addressed(&self) -> bool
        ensures { result ≡ is_next_addressed (room self.now) }
    {
        self.addressed
            .locals
            .get(self.declared)
            .copied()
            .unwrap_or(false)
    }

    /// Whether `&` is applied to a parameter.
    pub fn is_parameter_addressed(&self, number: usize) -> bool
        ensures { result ≡ is_parameter_addressed number (room self.now) }
    {
        self.addressed
            .parameters
            .get(number)
            .copied()
            .unwrap_or(false)
    }

    /// One more automatic local is declared.
    pub fn declare(&mut self) -> Result<(), AllocError>
        ensures { OnOk result (room self.new ≡ one_declared (room self.old)) }
    {
        if self.declared == usize::MAX {
            return Err(AllocError);
        }
        self.declared += 1;
        Ok(())
    }

    /// Memory for so many bytes, at the next multiple of an element's size: its offset.
    #[tactic(auto, using(crate::proofs::Limits::aligned_near), unfolding(c_typed_scope::specs::Layout::aligned))]
    pub fn take(&mut self, align: u32, size: u32) -> u32
        requires { (1 ≤ align) × (align ≤ 4) }
        ensures offset { result ≡ offset_in align (room self.old) }
        ensures near { result ≤ 262148 }
        ensures taken { room self.new ≡ taking align size (room self.old) }
    {
        let offset = (self.length.min(BLOCK_LIMIT + 1) + (align - 1)) / align * align;
        self.length = offset.saturating_add(size).min(BLOCK_LIMIT + 1);
        offset
    }

    /// A parameter lies in the block, where it is stored when a call begins: its offset.
    #[tactic(auto, using(crate::proofs::Limits::scalar_some))]
    pub fn take_parameter(&mut self, of: CType, number: u32) -> Result<u32, AllocError>
        requires { is_scalar of ≡ true }
        ensures offset { IfOk result (λ n. n ≡ offset_in (size_of of) (room self.old)) }
        ensures stored { OnOk result (room self.new ≡ with_parameter_in of number (room self.old)) }
    {
        let offset = self.take(of.size(), of.size());
        let value = Expression::Read(Place::Variable(of, Variable::Parameter(number)));
        self.stores.push(Declaration::Store(of, offset, value))?;
        Ok(offset)
    }

    /// The bytes of the block, a multiple of 4; DataFull, at this place, where they are too many.
    #[tactic(auto, unfolding(c_typed_definition::specs::Bodies::fits_stack, c_typed_scope::specs::Layout::aligned))]
    pub fn block(&self, at: u32) -> Result<u32, TypeFault>
        ensures { Gives (λ n. n) result (block_in at (room self.now)) }
    {
        if self.length > BLOCK_LIMIT {
            refuse(at, TypeKind::DataFull)
        } else {
            Ok((self.length + 3) / 4 * 4)
        }
    }
}
