// The least forms: small windows settle first, then large ones, and at last the whole section.
ghost use Rattle.std.specs.Prelude.{◌≡◌, ◌+◌, ◌-◌, ◌<◌, ◌≤◌, ◌^◌, cond, length, IfOk, OnOk};
ghost use Rattle.vax_image_branches.specs.Least.{ArePieces, IsBelow, IsLeast};

use crate::window::{Window, settle};
use gg_base::Size;
use std::alloc::{AllocError, Global};
use vax_image_branches::Piece;

/// Half of a window that has room for each branch with a field of a byte, of pieces that have a byte at least.
const NEAR: usize = 128;

/// The same for each branch with a field of a word.
const FAR: usize = 32_768;

// Where the window behind this one begins; or, where branches of this one grew, the one before it, in which some may not reach now.
fn next_first(first: usize, half: usize, grew: bool) -> usize
    requires { (first ≤ 2 ^ 33) × (half ≤ 2 ^ 20) }
    ensures { result ≡ cond grew (first - half) (first + half) }
{
    if grew {
        first.saturating_sub(half)
    } else {
        first + half
    }
}

// Settles windows of this half length, each of which begins in the middle of the one before.
fn sweep(alloc: Global, pieces: &[Piece], forms: &mut [Size], half: usize) -> Result<(), AllocError>
    requires half { (0 < half) × (half ≤ 2 ^ 20) }
    requires pieces { ArePieces pieces.now }
    requires below { IsBelow pieces.now forms.old }
    ensures { OnOk result (IsBelow pieces.now forms.new) }
{
    let mut first = 0;
    while first < pieces.len() {
        let count = (pieces.len() - first).min(2 * half);
        let grew = settle(alloc, pieces, forms, Window { first, count })?;
        first = next_first(first, half, grew);
    }
    Ok(())
}

// Grows forms until each branch reaches its target.
fn grow(alloc: Global, pieces: &[Piece], forms: &mut [Size]) -> Result<(), AllocError>
    requires pieces { ArePieces pieces.now }
    requires below { IsBelow pieces.now forms.old }
    ensures { OnOk result (IsLeast pieces.now forms.new) }
{
    sweep(alloc, pieces, forms, NEAR)?;
    sweep(alloc, pieces, forms, FAR)?;
    let whole = Window {
        first: 0,
        count: pieces.len(),
    };
    settle(alloc, pieces, forms, whole)?;
    Ok(())
}

/// The least forms by which each branch reaches its target.
pub fn least_forms(alloc: Global, pieces: &[Piece]) -> Result<Vec<Size>, AllocError>
    requires { ArePieces pieces.now }
    ensures { IfOk result (λ fs. IsLeast pieces.now fs.items) }
{
    let mut forms = vec![in alloc; Size::Byte; pieces.len()]?;
    grow(alloc, pieces, &mut forms)?;
    Ok(forms)
}
