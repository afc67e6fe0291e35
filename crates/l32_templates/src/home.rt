// Where a frame's longwords and arguments stand.
ghost use Rattle.std.specs.Prelude.{◌≡◌, ◌≤◌, ◌<◌};
ghost use Rattle.gg_base.specs.declared.limits.TheConstants.{NEED_LIMIT};
ghost use Rattle.l32_templates.specs.Homes.{word_offset, home, at_home, argument_home};

use gg_base::w32;
use l32_core::{Base32, Operand32};

// How far longword k of a frame lies from fp.
fn word_offset(k: u32) -> u32
    requires { k < NEED_LIMIT }
    ensures { result ≡ word_offset k }
{
    w32::neg(4 * (k + 1))
}

/// The home of local k, which is longword k of its frame: `-4(k+1)(fp)`.
pub fn home(k: u32) -> Operand32
    requires { k < NEED_LIMIT }
    ensures { result ≡ home k }
{
    Operand32::At(word_offset(k), Base32::Fp)
}

/// Memory at the address that stands in longword k of the frame: `@-4(k+1)(fp)`.
pub fn at_home(k: u32) -> Operand32
    requires { k < NEED_LIMIT }
    ensures { result ≡ at_home k }
{
    Operand32::Deferred(word_offset(k), Base32::Fp)
}

/// The home of argument i, counted from 1: `4(i-1)(fp)`.
pub fn argument_home(i: u32) -> Operand32
    requires low { 1 ≤ i }
    requires high { i ≤ 255 }
    ensures { result ≡ argument_home i }
{
    Operand32::At(4 * (i - 1), Base32::Fp)
}
