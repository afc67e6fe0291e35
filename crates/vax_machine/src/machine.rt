// The machine's state and its step.
ghost use Rattle.std.specs.Prelude.{◌≡◌, ◌≤◌, vec_len};
ghost use Rattle.gg_base.specs.declared.limits.TheConstants.{AREA_LIMIT, STACK_SIZE};

use crate::function::{Action, Computed, Conditions, Function, Test};
use crate::operands::{Arguments, Destination};
use crate::program::{Links, Program, Row};
use crate::turn::{BAD_CODE, Stop, Turn};
use gg_base::{Name, Size};
use vax_core::{CodeItem, Instr};
use vax_machine_live::Frames;

/// A machine that runs a code on an input.
#[derive(Drop)]
pub struct Machine<'a> {
    pub(crate) program: Program<'a>,
    pub(crate) place: usize,
    /// r0 to r11, ap, fp, sp.
    pub(crate) registers: [u32; 15],
    pub(crate) conditions: Conditions,
    pub(crate) area: Vec<u8>,
    pub(crate) stack: Vec<u8>,
    pub(crate) frames: Frames,
    pub(crate) input: &'a [u8],
    pub(crate) over: Option<Stop>,
    ghost whole_stack: { vec_len stack ≡ STACK_SIZE },
    ghost area_bound: { vec_len area ≤ AREA_LIMIT },
}

impl<'a> Machine<'a> {
    ghost use Rattle.vax_machine.specs.State.{Does};
    ghost use Rattle.vax_machine.specs.Step.{step_of, IsStep, act, instruction, acted, finished, pushing, branched};
    ghost use Rattle.vax_machine.specs.View.{state};
    ghost use Rattle.vax_machine.specs.Tables.{target_of, links_of};
    ghost use Rattle.vax_machine.specs.Rows.{row_view, row_of};
    ghost use Rattle.vax_core.specs.declared.code.CodeItem.TheVariants as item_kind;

    /// Does the next instruction. It takes no memory. Once the run is over, each further call answers so again.
    pub fn step(&mut self) -> Turn
        ensures { IsStep result (state self.new) (step_of (state self.old)) }
    {
        if let Some(stop) = self.over {
            return stop.turn();
        }
        match self.act() {
            Ok(None) => Turn::Going,
            Ok(Some(byte)) => Turn::Wrote(byte),
            Err(stop) => {
                self.over = Some(stop);
                stop.turn()
            }
        }
    }

    // The byte that the next instruction writes, if it writes one.
    #[tactic(auto, unfolding(crate::specs::Step::act), using(std::proofs::lemmas::Option::slice_get_within))]
    fn act(&mut self) -> Result<Option<u8>, Stop>
        ensures { Does result (state self.new) (act (state self.old)) }
    {
        let items = self.program.items;
        let place = self.program.next_item(self.place);
        let Some(CodeItem::Instr(instr)) = items.get(place) else {
            return Err(BAD_CODE);
        };
        let links = self.program.links(place);
        let row = self.program.row(place);
        self.place = place + 1;
        self.instruction(instr, row, links)
    }

    #[tactic(auto, unfolding(crate::specs::Step::instruction))]
    fn instruction(&mut self, instr: &Instr, row: Row, links: Links) -> Result<Option<u8>, Stop>
        requires row { row_view row ≡ row_of (item_kind.Instr instr.now) }
        requires links { links ≡ links_of self.old.program.layout.now self.old.program.items.now (item_kind.Instr instr.now) }
        ensures { Does result (state self.new) (instruction (state self.old) instr.now.op instr.now.operands instr.now.target) }
    {
        let arguments = self.evaluate_all(row.kinds, instr.operands.as_slice(), &links.numbers)?;
        self.act_on(row.action, arguments, &instr.target, links.target)
    }

    fn act_on(
        &mut self,
        action: Action,
        x: Arguments,
        target: &Option<Name>,
        place: usize,
    ) -> Result<Option<u8>, Stop>
        requires { place ≡ target_of self.old.program.items.now target.now }
        ensures { Does result (state self.new) (acted action x target.now (state self.old)) }
    {
        match action {
            Action::Compute(function) => self.finish(
                x.destination,
                function.apply(x.first, x.second, self.conditions.carry),
            ),
            Action::Push => self.push_value(x.first),
            Action::Branch(test) => self.branch(test.passes(self.conditions), target, place),
            Action::Call => self.call_by_name(x.first, target, place),
            Action::Return => self.return_from_call(),
        }
    }

    // Writes a result and sets the condition codes.
    fn finish(
        &mut self,
        destination: Option<Destination>,
        computed: Option<Computed>,
    ) -> Result<Option<u8>, Stop>
        ensures { Does result (state self.new) (finished (state self.old) destination computed) }
    {
        let Some(computed) = computed else {
            return Err(Stop::Trapped);
        };
        self.store(destination, computed.value)?;
        self.conditions = computed.conditions;
        Ok(None)
    }

    fn push_value(&mut self, value: u32) -> Result<Option<u8>, Stop>
        ensures { Does result (state self.new) (pushing (state self.old) value) }
    {
        let carry = self.conditions.carry;
        self.push(value)?;
        self.conditions = Computed::of(Size::Long, value, carry).conditions;
        Ok(None)
    }

    fn branch(
        &mut self,
        taken: bool,
        target: &Option<Name>,
        place: usize,
    ) -> Result<Option<u8>, Stop>
        requires { place ≡ target_of self.old.program.items.now target.now }
        ensures { Does result (state self.new) (branched (state self.old) taken target.now) }
    {
        if target.is_none() {
            return Err(BAD_CODE);
        }
        if taken {
            self.place = place;
        }
        Ok(None)
    }
}
