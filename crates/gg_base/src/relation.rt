// Relations between two longwords.
ghost use Rattle.std.specs.Prelude.{◌≡◌};
ghost use Rattle.gg_base.specs.Relations.{holds};

/// A relation between two longwords: equality, the four signed orders, and the four unsigned ones.
#[derive(Clone, Copy, Debug, PartialEq, Eq)]
pub enum Rel {
    Eq,
    Ne,
    Lt,
    Le,
    Gt,
    Ge,
    Ltu,
    Leu,
    Gtu,
    Geu,
}

impl Rel {
    /// Whether the relation holds of `a` and `b`; the first six read both as signed, the last four as unsigned.
    pub fn holds(self, a: u32, b: u32) -> bool
        ensures { result ≡ holds self a b }
    {
        match self {
            Rel::Eq => a == b,
            Rel::Ne => a != b,
            Rel::Lt => signed_rank(a) < signed_rank(b),
            Rel::Le => signed_rank(a) <= signed_rank(b),
            Rel::Gt => signed_rank(b) < signed_rank(a),
            Rel::Ge => signed_rank(b) <= signed_rank(a),
            Rel::Ltu => a < b,
            Rel::Leu => a <= b,
            Rel::Gtu => b < a,
            Rel::Geu => b <= a,
        }
    }
}

ghost use Rattle.gg_base.specs.Relations.{signed_rank};

// The place of a signed number in the order from -2147483648 to 2147483647, counted from 0.
fn signed_rank(a: u32) -> u32
    ensures { result ≡ signed_rank a }
{
    a.wrapping_add(0x8000_0000)
}
