// How many entries of a stack hold each register and each frame word.
ghost use Rattle.std.specs.Prelude.{◌≡◌, ◌==◌, ◌<◌, length, replicate, slice_index, not, IfOk};
ghost use Rattle.gg_base.specs.declared.limits.TheConstants.{NEED_LIMIT};

use crate::holding::{REGISTERS, in_register, word_of};
use gg_base::NoMemory;
use gg_base::limits::NEED_LIMIT;
use sel_target::{Attr, Templates};
use std::alloc::Global;

/// How many entries of a stack hold each register that a rule may take, and how many each word of a frame.
#[derive(Drop)]
pub struct Tally {
    pub registers: Vec<usize>,
    pub words: Vec<usize>,
    ghost twelve: { length registers.items ≡ 12 },
    ghost all_words: { length words.items ≡ NEED_LIMIT },
}

impl Tally {
    ghost use Rattle.sel_parse_desk.specs.Tallied.{HaveRoom, HaveRisen, AreAtLeast, HaveFallen};
    ghost use Rattle.sel_parse_desk.specs.Tallied.{registers_of, words_of, registers_among, words_among};

    /// Nothing is held.
    pub fn new(alloc: Global) -> Result<Self, NoMemory>
        ensures registers { IfOk result (λ t. t.registers.items ≡ replicate 12 0) }
        ensures words { IfOk result (λ t. t.words.items ≡ replicate NEED_LIMIT 0) }
    {
        Ok(Tally {
            registers: vec![in alloc; 0; REGISTERS as usize]?,
            words: vec![in alloc; 0; NEED_LIMIT as usize]?,
        })
    }

    /// One attribute more is counted.
    pub fn raise<T: Templates>(&mut self, target: &T, attr: &Attr<T::Operand>)
        requires register_room { HaveRoom 12 self.old.registers.items (registers_of T.meaning attr.now) }
        requires word_room { HaveRoom NEED_LIMIT self.old.words.items (words_of T.meaning attr.now) }
        ensures registers { HaveRisen 12 self.old.registers.items self.new.registers.items (registers_of T.meaning attr.now) }
        ensures words { HaveRisen NEED_LIMIT self.old.words.items self.new.words.items (words_of T.meaning attr.now) }
    {
        for register in 0..REGISTERS {
            if in_register(target, register, attr) {
                self.registers[register as usize] += 1;
            }
        }
        if let Some(word) = word_of(target, attr) {
            let at = word as usize;
            if at < self.words.len() {
                self.words[at] += 1;
            }
        }
    }

    /// An attribute is counted no more.
    pub fn lower<T: Templates>(&mut self, target: &T, attr: &Attr<T::Operand>)
        requires in_registers { AreAtLeast 12 self.old.registers.items (registers_of T.meaning attr.now) }
        requires in_words { AreAtLeast NEED_LIMIT self.old.words.items (words_of T.meaning attr.now) }
        ensures registers { HaveFallen 12 self.old.registers.items self.new.registers.items (registers_of T.meaning attr.now) }
        ensures words { HaveFallen NEED_LIMIT self.old.words.items self.new.words.items (words_of T.meaning attr.now) }
    {
        for register in 0..REGISTERS {
            if in_register(target, register, attr) {
                self.registers[register as usize] -= 1;
            }
        }
        if let Some(word) = word_of(target, attr) {
            let at = word as usize;
            if at < self.words.len() {
                self.words[at] -= 1;
            }
        }
    }

    /// Attributes are counted no more.
    pub fn lower_all<T: Templates>(&mut self, target: &T, attrs: &[Attr<T::Operand>])
        requires in_registers { AreAtLeast 12 self.old.registers.items (registers_among T.meaning attrs.now) }
        requires in_words { AreAtLeast NEED_LIMIT self.old.words.items (words_among T.meaning attrs.now) }
        ensures registers { HaveFallen 12 self.old.registers.items self.new.registers.items (registers_among T.meaning attrs.now) }
        ensures words { HaveFallen NEED_LIMIT self.old.words.items self.new.words.items (words_among T.meaning attrs.now) }
    {
        for attr in attrs {
            self.lower(target, attr);
        }
    }

    /// Whether a counted attribute holds a register.
    pub fn holds_register(&self, register: u8) -> bool
        requires { register < 12 }
        ensures { result ≡ not (slice_index self.now.registers.items register == 0) }
    {
        self.registers[register as usize] != 0
    }

    /// Whether a counted attribute holds a frame word.
    pub fn holds_word(&self, word: u32) -> bool
        requires { word < NEED_LIMIT }
        ensures { result ≡ not (slice_index self.now.words.items word == 0) }
    {
        self.words[word as usize] != 0
    }
}
