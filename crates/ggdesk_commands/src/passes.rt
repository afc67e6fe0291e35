// Passes of the rows: the names of the shipped ones, and three of the rows' own.
ghost use Rattle.std.specs.Prelude.{◌≡◌, ◌≤◌};

use gg_base::NoMemory;
use vax_alike::laws::{alike_goes_on, alike_is_same};
use vax_core::Code;
use vax_passes::Pass;

/// A pass by its name in a row.
#[derive(Clone, Copy)]
pub enum PassName {
    /// `JumpChain`.
    Chain,
    /// `NextJump`.
    Next,
    /// `DeadTail`.
    Dead,
    /// `NeedlessTest`.
    Test,
    /// `NextJump` twice, as one pass.
    Twice,
    /// One that gives the code back, and has made so many changes before.
    Counted(u32),
    /// One that gives the code back, but finds no memory at its second call, and was called so many times before.
    Refusing(u32),
}

impl PassName {
    /// The pass of a mark without a number.
    pub fn of(mark: &str) -> Option<PassName> {
        match mark {
            "chain" => Some(PassName::Chain),
            "next" => Some(PassName::Next),
            "dead" => Some(PassName::Dead),
            "test" => Some(PassName::Test),
            "twice" => Some(PassName::Twice),
            _ => None,
        }
    }
}

/// Another pass, and the same once more over what it made.
#[derive(Drop)]
pub struct Twice<P: Pass> {
    pass: P,
}

impl<P: Pass> Twice<P> {
    pub fn new(pass: P) -> Self {
        Twice { pass }
    }
}

impl<P: Pass> Pass for Twice<P> {
    ghost made = { λ p. P.made p.pass };

    ghost wrote = { λ p n c d. P.made p.pass ≤ n };

    fn rewrite(&mut self, code: Code) -> Result<Code, NoMemory> {
        alike_goes_on();
        let once = self.pass.rewrite(code)?;
        self.pass.rewrite(once)
    }

    fn changes(&self) -> u64 {
        self.pass.changes()
    }
}

/// Gives the code back and leaves its number of changes.
#[derive(Drop)]
pub struct Counted {
    changes: u64,
}

impl Counted {
    pub fn new(changes: u64) -> Self {
        Counted { changes }
    }
}

impl Pass for Counted {
    ghost made = { λ p. p.changes };

    ghost wrote = { λ p n c d. d ≡ c };

    fn rewrite(&mut self, code: Code) -> Result<Code, NoMemory> {
        alike_is_same();
        Ok(code)
    }

    fn changes(&self) -> u64 {
        self.changes
    }
}

/// Gives the code back, but finds no memory at its second call.
#[derive(Drop)]
pub struct Refusing {
    calls: u32,
}

impl Refusing {
    /// A pass that was called so many times.
    pub fn new(calls: u32) -> Self {
        Refusing { calls }
    }
}

impl Pass for Refusing {
    ghost made = { λ p. 0 };

    ghost wrote = { λ p n c d. d ≡ c };

    fn rewrite(&mut self, code: Code) -> Result<Code, NoMemory> {
        alike_is_same();
        let refuses = self.calls == 1;
        self.calls = self.calls.saturating_add(1);
        if refuses { Err(NoMemory) } else { Ok(code) }
    }

    fn changes(&self) -> u64 {
        0
    }
}
