// How deep a phrase stands.
ghost use Rattle.std.specs.Prelude.{◌≡◌, ◌≤◌, ◌<◌, ◌+◌, IfSome, IfNone};

use std::marker::Model;

/// How many levels are open.
#[derive(Clone, Copy)]
pub struct Level(u32);

impl Model for Level {
    ghost use Rattle.std.specs.Prelude.{ℕ, ◌≤◌};

    ghost Value = { ℕ };

    ghost view = { λ l. l.0 };

    ghost invariant = { λ l. l.0 ≤ 200 };

    ghost inverse = { λ n. record { 0 = n } };
}

impl Level {
    const LIMIT: u32 = 200;

    /// No level is open.
    pub const OUTER: Level = Level(0);

    /// One level is open.
    pub const FIRST: Level = Level(1);

    /// So many levels more, unless those are too many.
    pub fn opened(self, by: u32) -> Option<Level>
        ensures opened { IfSome result (λ m. (m ≡ self + by) × (self + by ≤ 200)) }
        ensures deep { IfNone result (200 < self + by) }
    {
        if by > Self::LIMIT - self.0 {
            return None;
        }
        Some(Level(self.0 + by))
    }

    /// One level less.
    pub fn closed(self) -> Level
        requires { 0 < self }
        ensures { result + 1 ≡ self }
    {
        Level(self.0 - 1)
    }
}
