// The machine's state and its step.
ghost use Rattle.std.specs.Prelude.{◌≡◌, ◌≤◌, vec_len, vec_capacity};
ghost use Rattle.gg_base.specs.declared.limits.TheConstants.{AREA_LIMIT, FRAME_LIMIT, STACK_SIZE};

use crate::frame::Frame32;
use crate::function::{Action, action_of};
use crate::operands::{Arguments, Destination};
use crate::program::{Links, Program};
use crate::turn::{BAD_CODE, Stop32, Turn32};
use gg_base::{Name, w32};
use l32_core::{Instr32, Item32, Shape32};

/// A machine that runs a code on an input.
#[derive(Drop)]
pub struct Machine32<'a> {
    pub(crate) program: Program<'a>,
    pub(crate) place: usize,
    /// a0 to a11.
    pub(crate) general: [u32; 12],
    pub(crate) fp: u32,
    pub(crate) sp: u32,
    pub(crate) area: Vec<u8>,
    pub(crate) stack: Vec<u8>,
    /// With room for `FRAME_LIMIT`.
    pub(crate) frames: Vec<Frame32>,
    pub(crate) input: &'a [u8],
    pub(crate) over: Option<Stop32>,
    ghost whole_stack: { vec_len stack ≡ STACK_SIZE },
    ghost area_bound: { vec_len area ≤ AREA_LIMIT },
    ghost room: { vec_capacity frames ≡ FRAME_LIMIT },
}

impl<'a> Machine32<'a> {
    ghost use Rattle.l32_machine.specs.State.{Does};
    ghost use Rattle.l32_machine.specs.Step.{step_of, IsStep, act, instruction, acted, finished, branched};
    ghost use Rattle.l32_machine.specs.View.{state};
    ghost use Rattle.l32_machine.specs.Tables.{target_of, links_of};
    ghost use Rattle.l32_core.specs.declared.code.Item32.TheVariants as item_kind;

    /// Does the next instruction. It takes no memory. Once the run is over, each further call answers so again.
    pub fn step(&mut self) -> Turn32
        ensures { IsStep result (state self.new) (step_of (state self.old)) }
    {
        if let Some(stop) = self.over {
            return stop.turn();
        }
        match self.act() {
            Ok(None) => Turn32::Going,
            Ok(Some(byte)) => Turn32::Wrote(byte),
            Err(stop) => {
                self.over = Some(stop);
                stop.turn()
            }
        }
    }

    // The byte that the next instruction writes, if it writes one.
    #[tactic(auto, unfolding(crate::specs::Step::act), using(std::proofs::lemmas::Option::slice_get_within))]
    fn act(&mut self) -> Result<Option<u8>, Stop32>
        ensures { Does result (state self.new) (act (state self.old)) }
    {
        let items = self.program.items;
        let place = self.program.next_item(self.place);
        let Some(Item32::Instr(instr)) = items.get(place) else {
            return Err(BAD_CODE);
        };
        let links = self.program.links(place);
        self.place = place + 1;
        self.instruction(instr, links)
    }

    #[tactic(auto, unfolding(crate::specs::Step::instruction))]
    fn instruction(&mut self, instr: &Instr32, links: Links) -> Result<Option<u8>, Stop32>
        requires { links ≡ links_of self.old.program.layout.now self.old.program.items.now (item_kind.Instr instr.now) }
        ensures { Does result (state self.new) (instruction (state self.old) instr.now.op instr.now.operands instr.now.target) }
    {
        let Shape32 { mnemonic: _, parts } = instr.op.shape();
        let arguments = self.evaluate_all(parts, instr.operands.as_slice(), &links.numbers)?;
        self.act_on(action_of(instr.op), arguments, &instr.target, links.target)
    }

    fn act_on(
        &mut self,
        action: Action,
        x: Arguments,
        target: &Option<Name>,
        place: usize,
    ) -> Result<Option<u8>, Stop32>
        requires { place ≡ target_of self.old.program.items.now target.now }
        ensures { Does result (state self.new) (acted action x target.now (state self.old)) }
    {
        match action {
            Action::Compute(function) => {
                self.finish(x.destination, function.apply(x.first, x.second))
            }
            Action::Branch(relation) => {
                self.branch(relation.holds(x.first, x.second), target, place)
            }
            Action::Jump => self.branch(true, target, place),
            Action::Push => {
                self.push(x.first)?;
                Ok(None)
            }
            Action::Enter => {
                let sp = w32::sub(self.sp, w32::mul(4, x.first));
                self.set_sp(sp)?;
                Ok(None)
            }
            Action::Call => self.call_by_name(x.first, target, place),
            Action::Return => self.return_from_call(),
        }
    }

    // Puts a result where it goes.
    fn finish(
        &mut self,
        destination: Option<Destination>,
        computed: Option<u32>,
    ) -> Result<Option<u8>, Stop32>
        ensures { Does result (state self.new) (finished (state self.old) destination computed) }
    {
        let Some(value) = computed else {
            return Err(Stop32::Trapped);
        };
        self.store(destination, value)?;
        Ok(None)
    }

    fn branch(
        &mut self,
        taken: bool,
        target: &Option<Name>,
        place: usize,
    ) -> Result<Option<u8>, Stop32>
        requires { place ≡ target_of self.old.program.items.now target.now }
        ensures { Does result (state self.new) (branched (state self.old) taken target.now) }
    {
        if target.is_none() {
            return Err(BAD_CODE);
        }
        if taken {
            self.place = place;
        }
        Ok(None)
    }
}
