// Where a frame's words and arguments stand.
ghost use Rattle.std.specs.Prelude.{◌≡◌, ◌≤◌, ◌<◌};
ghost use Rattle.gg_base.specs.declared.limits.TheConstants.{NEED_LIMIT};
ghost use Rattle.vax_core.specs.Homes.{word_addr, home, at_home, argument_home};

use crate::{Addr, Base, Operand, Reg};
use gg_base::w32;

// How far word k of a frame lies from its fp.
fn word_addr(k: u32) -> Addr
    requires { k < NEED_LIMIT }
    ensures { result ≡ word_addr k }
{
    Addr {
        name: None,
        offset: w32::neg(4 * (k + 1)),
    }
}

impl Operand {
    /// The home of local k, which is word k of its frame: `-4(k+1)(fp)`.
    pub fn home(k: u32) -> Self
        requires { k < NEED_LIMIT }
        ensures { result ≡ home k }
    {
        Operand {
            base: Base::Disp(word_addr(k), Reg::Fp),
            index: None,
        }
    }

    /// Memory at the address that stands in word k of the frame: `*-4(k+1)(fp)`.
    pub fn at_home(k: u32) -> Self
        requires { k < NEED_LIMIT }
        ensures { result ≡ at_home k }
    {
        Operand {
            base: Base::DispDef(word_addr(k), Reg::Fp),
            index: None,
        }
    }

    /// The home of argument i, counted from 1: `4i(ap)`.
    pub fn argument_home(i: u32) -> Self
        requires { i ≤ 255 }
        ensures { result ≡ argument_home i }
    {
        let offset = 4 * i;
        Operand {
            base: Base::Disp(Addr { name: None, offset }, Reg::Ap),
            index: None,
        }
    }
}
