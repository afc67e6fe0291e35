// A pass of the program's own.
ghost use Rattle.std.specs.Prelude.{◌≤◌};

use gg_base::NoMemory;
use vax_alike::laws::{alike_goes_on, alike_is_same};
use vax_core::Code;
use vax_passes::Pass;

/// Two passes as one, the second over what the first has made. Its changes are those of both, up to 2^64 - 1.
#[derive(Drop)]
pub struct Both<P: Pass, Q: Pass> {
    first: P,
    second: Q,
    made: u64,
}

impl<P: Pass, Q: Pass> Both<P, Q> {
    /// These two, of which no change is counted yet.
    pub fn new(first: P, second: Q) -> Self {
        Both {
            first,
            second,
            made: 0,
        }
    }
}

impl<P: Pass, Q: Pass> Pass for Both<P, Q> {
    ghost made = { λ p. p.made };

    ghost wrote = { λ p n c d. p.made ≤ n };

    fn rewrite(&mut self, code: Code) -> Result<Code, NoMemory> {
        alike_is_same();
        alike_goes_on();
        if self.made == u64::MAX {
            return Ok(code);
        }
        let (first, second) = (self.first.changes(), self.second.changes());
        let between = self.first.rewrite(code)?;
        let made = self.second.rewrite(between)?;
        self.made = self
            .made
            .saturating_add(self.first.changes() - first)
            .saturating_add(self.second.changes() - second);
        Ok(made)
    }

    fn changes(&self) -> u64 {
        self.made
    }
}
