// Passes of the program's own.
ghost use Rattle.std.specs.Prelude.{◌≡◌, false};

use gg_base::NoMemory;
use vax_alike::laws::alike_is_same;
use vax_core::Code;
use vax_passes::Pass;

/// Another pass, but at the first call alone; at each other it gives the code back.
#[derive(Drop)]
pub struct Once<P: Pass> {
    pass: P,
    is_done: bool,
}

impl<P: Pass> Once<P> {
    pub fn new(pass: P) -> Self {
        Once {
            pass,
            is_done: false,
        }
    }
}

impl<P: Pass> Pass for Once<P> {
    ghost made = { λ p. P.made p.pass };

    ghost wrote = { λ p n c d. p.is_done ≡ false → P.wrote p.pass n c d };

    fn rewrite(&mut self, code: Code) -> Result<Code, NoMemory> {
        if self.is_done {
            alike_is_same();
            return Ok(code);
        }
        self.is_done = true;
        self.pass.rewrite(code)
    }

    fn changes(&self) -> u64 {
        self.pass.changes()
    }
}

/// Gives the code back, but finds no memory at its second call.
#[derive(Drop)]
pub struct Refuse {
    calls: u8,
}

impl Refuse {
    pub fn new() -> Self {
        Refuse { calls: 0 }
    }
}

impl Pass for Refuse {
    ghost made = { λ p. 0 };

    ghost wrote = { λ p n c d. d ≡ c };

    fn rewrite(&mut self, code: Code) -> Result<Code, NoMemory> {
        alike_is_same();
        if self.calls < 2 {
            self.calls += 1;
        }
        if self.calls == 2 {
            return Err(NoMemory);
        }
        Ok(code)
    }

    fn changes(&self) -> u64 {
        0
    }
}
