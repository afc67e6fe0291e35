// The frame's word that an operand reads.
ghost use Rattle.std.specs.Prelude.{◌≡◌};
ghost use Rattle.vax_templates.specs.FrameWords.{word_below, word_behind, word_of};

use gg_base::w32;
use vax_core::{Addr, Base, Reg};

fn word_below(n: u32) -> Option<u32>
    ensures { result ≡ word_below n }
{
    if 4 <= n && n <= 4096 && n % 4 == 0 {
        Some(n / 4 - 1)
    } else {
        None
    }
}

fn word_behind(r: Reg, a: &Addr) -> Option<u32>
    ensures { result ≡ word_behind r a.now }
{
    match (r, &a.name) {
        (Reg::Fp, None) => word_below(w32::neg(a.offset)),
        _ => None,
    }
}

/// The frame's word that the base of an operand reads, from 0.
pub fn word_of(base: &Base) -> Option<u32>
    ensures { result ≡ word_of base.now }
{
    match base {
        Base::Disp(a, r) => word_behind(*r, a),
        Base::DispDef(a, r) => word_behind(*r, a),
        _ => None,
    }
}
