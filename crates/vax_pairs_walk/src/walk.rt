// The walk over a piece of code, on terms.
ghost use Rattle.std.specs.Prelude.{◌≡◌, ◌<◌, ◌&&◌, IfOk, Some, None};
ghost use Rattle.vax_pairs.specs.TermRuns.{run_tree};
ghost use Rattle.vax_pairs_walk.specs.Answers.{Gives, Leads};
ghost use Rattle.vax_pairs_walk.specs.Stepping.{is_marked, branched, called_named, called, counted, acted, stepped, stepped_from};
ghost use Rattle.vax_pairs_walk.specs.Views.{state_of, front_of};
ghost use Rattle.vax_pairs_walk.specs.Pieces.{step_of, goes_on, tree_of};

use crate::code::Walk;
use crate::front::Front;
use crate::gap::Gap;
use crate::services::{is_getchar, is_putchar};
use crate::state::State;
use crate::tree::{Step, Stop, Straight, Tree};
use gg_base::{Name, Size};
use vax_core::{Access, Addr, Base, CodeItem, Instr, Operand, OperandKind};
use vax_machine::function::{Action, Test, action_of};

impl<'a> Walk<'a> {
    fn is_cut(self, place: usize) -> bool
        ensures { result ≡ is_marked self.entry.cuts.now place }
    {
        self.cuts.get(place).copied().unwrap_or(false)
    }

    // A branch, behind which comes a place.
    fn branched(self, test: Test, target: &Option<Name>, behind: usize) -> Result<Step, Gap>
        ensures { Gives step_of result (branched self.entry.items.now test target.now behind) }
    {
        let Some(name) = target else {
            return Err(Gap::NoTree);
        };
        let to = self.label_place(name.as_slice());
        match test {
            Test::Always => Ok(Step::On(to)),
            test => Ok(Step::Halt(Stop::Asks(test, to, behind))),
        }
    }

    // A call with so many arguments of a service, or of the function of that name.
    fn called_named(
        self,
        front: &mut Front,
        count: u32,
        name: &Name,
        behind: usize,
    ) -> Result<Step, Gap>
        ensures { Leads step_of result (front_of front.new) (called_named None count name.now behind (front_of front.old)) }
    {
        if is_putchar(name.as_slice()) {
            if count != 1 {
                return Err(Gap::NoTree);
            }
            front.put_byte(self.alloc)?;
            return Ok(Step::On(behind));
        }
        if is_getchar(name.as_slice()) {
            if count != 0 {
                return Err(Gap::NoTree);
            }
            front.get_byte(self.alloc)?;
            return Ok(Step::On(behind));
        }
        match Name::copy_of(self.alloc, name.as_slice()) {
            Ok(name) => Ok(Step::Halt(Stop::Calls(count, name, behind))),
            Err(_) => Err(Gap::NoMemory),
        }
    }

    // A call with a number of arguments.
    fn called(
        self,
        front: &mut Front,
        operands: &[Operand],
        target: &Option<Name>,
        behind: usize,
    ) -> Result<Step, Gap>
        ensures { Leads step_of result (front_of front.new) (called operands.now target.now behind (front_of front.old)) }
    {
        let ([Operand { base, index: None }], Some(name)) = (operands, target) else {
            return Err(Gap::NoTree);
        };
        let Base::Imm(Addr { name: None, offset }) = base else {
            return Err(Gap::NoTree);
        };
        self.called_named(front, *offset, name, behind)
    }

    // A call whose operand is a count.
    fn counted(
        self,
        front: &mut Front,
        kind: OperandKind,
        instr: &Instr,
        behind: usize,
    ) -> Result<Step, Gap>
        ensures { Leads step_of result (front_of front.new)
            (counted kind.access kind.size (called instr.now.operands instr.now.target behind (front_of front.old))) }
    {
        match kind.access {
            Access::Count => match kind.size {
                Size::Long => {
                    self.called(front, instr.operands.as_slice(), &instr.target, behind)
                }
                Size::Byte | Size::Word => Err(Gap::NoTree),
            },
            _ => Err(Gap::NoTree),
        }
    }

    // What an instruction does that acts so, with operands of these kinds.
    fn acted(
        self,
        front: &mut Front,
        action: Action,
        kinds: &[OperandKind],
        instr: &Instr,
        behind: usize,
    ) -> Result<Step, Gap>
        ensures { Leads step_of result (front_of front.new)
            (acted self.entry.items.now self.entry.layout.now action kinds.now instr.now.operands instr.now.target
            behind (front_of front.old)) }
    {
        match action {
            Action::Compute(function) => {
                self.computed(front, function, kinds, instr.operands.as_slice())?;
                Ok(Step::On(behind))
            }
            Action::Push => {
                self.pushed(front, kinds, instr.operands.as_slice())?;
                Ok(Step::On(behind))
            }
            Action::Branch(test) => match kinds {
                [] => self.branched(test, &instr.target, behind),
                _ => Err(Gap::NoTree),
            },
            Action::Call => match kinds {
                [kind] => self.counted(front, *kind, instr, behind),
                _ => Err(Gap::NoTree),
            },
            Action::Return => match kinds {
                [] => Ok(Step::Halt(Stop::Returns(behind))),
                _ => Err(Gap::NoTree),
            },
        }
    }

    fn instruction(self, front: &mut Front, instr: &Instr, behind: usize) -> Result<Step, Gap>
        ensures { Leads step_of result (front_of front.new)
            (stepped self.entry.items.now self.entry.layout.now instr.now behind (front_of front.old)) }
    {
        let shape = instr.op.shape();
        self.acted(front, action_of(instr.op), shape.operands, instr, behind)
    }

    // What the instruction does that is next from a place on.
    fn step(self, front: &mut Front, place: usize) -> Result<Step, Gap>
        ensures { Leads step_of result (front_of front.new)
            (stepped_from self.entry.items.now self.entry.layout.now place (front_of front.old)) }
    {
        let next = self.next_item(place);
        match self.items.get(next) {
            Some(CodeItem::Instr(instr)) => self.instruction(front, instr, next + 1),
            _ => Err(Gap::NoTree),
        }
    }

    // Whether a piece stops at a cut.
    fn stops(self, moved: bool, place: usize) -> bool
        ensures { result ≡ (moved && is_marked self.entry.cuts.now place) }
    {
        moved && self.is_cut(place)
    }

    // What a piece does before it stops, in at most so many instructions.
    fn straight(
        self,
        fuel: u32,
        moved: bool,
        place: usize,
        known: u8,
        state: State,
    ) -> Result<Straight, Gap>
        ensures tree { IfOk result (λ r. run_tree self.entry.items.now self.entry.layout.now (is_marked self.entry.cuts.now)
            fuel moved place known (state_of state)
            ≡ goes_on self.entry.items.now self.entry.layout.now (is_marked self.entry.cuts.now) r) }
        ensures fewer { IfOk result (λ r. r.left < fuel) }
    {
        let mut front = Front {
            events: Vec::new(self.alloc),
            known,
            state,
        };
        let mut left = fuel;
        let mut moved = moved;
        let mut place = place;
        while left > 0 {
            left -= 1;
            if self.stops(moved, place) {
                let stop = Stop::Arrives(moved, place);
                return Ok(Straight { front, left, stop });
            }
            match self.step(&mut front, place) {
                Ok(Step::On(next)) => {
                    place = next;
                    moved = true;
                }
                Ok(Step::Halt(stop)) => return Ok(Straight { front, left, stop }),
                Err(gap) => return Err(gap),
            }
        }
        Err(Gap::NoTree)
    }

    /// The tree of a piece of at most so many instructions on each way, with at most so many questions, which are taken off `questions`.
    pub fn piece(
        self,
        questions: &mut u32,
        fuel: u32,
        moved: bool,
        place: usize,
        known: u8,
        state: State,
    ) -> Result<Tree, Gap>
        ensures { Gives tree_of result (run_tree self.entry.items.now self.entry.layout.now (is_marked self.entry.cuts.now)
            fuel moved place known (state_of state)) }
    {
        let Straight { front, left, stop } = self.straight(fuel, moved, place, known, state)?;
        let Front {
            events,
            known,
            state,
        } = front;
        match stop {
            Stop::Arrives(moved, place) => Ok(Tree::Arrives(events, moved, place, state)),
            Stop::Calls(count, name, behind) => {
                Ok(Tree::Calls(events, count, name, behind, state))
            }
            Stop::Returns(behind) => Ok(Tree::Returns(events, behind, state)),
            Stop::Asks(test, to, behind) => {
                if *questions == 0 {
                    return Err(Gap::NoTree);
                }
                *questions -= 1;
                let copy = state.copied(self.alloc)?;
                let yes = self.piece(questions, left, true, to, known, copy)?;
                let copy = state.copied(self.alloc)?;
                let no = self.piece(questions, left, true, behind, known, copy)?;
                let yes = Box::new(self.alloc, yes)?;
                let no = Box::new(self.alloc, no)?;
                Ok(Tree::Asks(events, test, state, yes, no))
            }
        }
    }
}
