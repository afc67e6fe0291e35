// Reading an input whole.
ghost use Rattle.std.specs.Prelude.{◌≡◌, ◌<◌, ◌≤◌, ◌+◌, length, vec_len, IfOk, OnErr, IsErrOf};
ghost use Rattle.cmd_session.specs.Reading.{intake, GivesAll, TakesAtMost, HasOver, Moves, count_after};
ghost use Rattle.cmd_session.specs.declared.input.InputFault.TheVariants as faults;

use gg_base::Bytes;
use gg_outside::{Failed, Source};
use std::alloc::{AllocError, Global};

/// Why an input was not read.
#[derive(Clone, Copy, Debug, PartialEq, Eq)]
pub enum InputFault {
    /// No memory was left for its bytes.
    NoMemory,
    /// Reading failed.
    Failed,
    /// It is longer than the limit.
    TooLong,
}

impl From<AllocError> for InputFault {
    ghost use Rattle.std.specs.Prelude.{◌≡◌};
    ghost use Rattle.cmd_session.specs.declared.input.InputFault.TheVariants.{NoMemory};

    ghost from_gives = { λ _ e. e ≡ NoMemory };

    fn from(_: AllocError) -> Self {
        InputFault::NoMemory
    }
}

impl From<Failed> for InputFault {
    ghost use Rattle.std.specs.Prelude.{◌≡◌};
    ghost use Rattle.cmd_session.specs.declared.input.InputFault.TheVariants as faults;

    ghost from_gives = { λ _ e. e ≡ faults.Failed };

    fn from(_: Failed) -> Self {
        InputFault::Failed
    }
}

/// The most bytes that are asked for at once.
const PIECE: usize = 65_536;

// So many bytes, whichever.
fn piece_of(alloc: Global, len: usize) -> Result<Vec<u8>, AllocError>
    ensures { IfOk result (λ piece. vec_len piece ≡ len) }
{
    vec![in alloc; 0u8; len]
}

// Moves the next bytes of the input, no more than the piece has room for, to the end of `bytes`, and answers how many.
fn read_piece<I: Source>(
    input: &mut I,
    piece: &mut [u8],
    bytes: &mut Vec<u8>,
) -> Result<usize, InputFault>
    requires { 0 < length piece.old }
    ensures moved { IfOk result (λ n. Moves n (I.left input.old) (I.left input.new) bytes.old.items bytes.new.items) }
    ensures within { IfOk result (λ n. n ≤ length piece.new) }
    ensures grown { IfOk result (λ n. vec_len bytes.new ≡ vec_len bytes.old + n) }
    ensures taken { OnErr result (TakesAtMost (length piece.new) (intake I.Source input.old input.new)) }
    ensures counts { I.faults input.new ≡ count_after (I.faults input.old) result }
    ensures no_limit { IsErrOf result faults.TooLong → ⊥ }
{
    let n = input.read(piece)?;
    bytes.extend_from_slice(&piece[..n])?;
    Ok(n)
}

/// All that is left of an input of at most `limit` bytes. No more than one byte beyond the limit is taken from it.
pub fn read_all<I: Source>(alloc: Global, input: &mut I, limit: usize) -> Result<Bytes, InputFault>
    requires { limit < usize.MAX }
    ensures whole { IfOk result (λ bytes. GivesAll (intake I.Source input.old input.new) bytes) }
    ensures within { IfOk result (λ bytes. length bytes ≤ limit) }
    ensures too_long { IsErrOf result faults.TooLong → HasOver limit (I.left input.old) }
    ensures taken { TakesAtMost (limit + 1) (intake I.Source input.old input.new) }
    ensures counts { I.faults input.new ≡ count_after (I.faults input.old) result }
{
    let mut piece = piece_of(alloc, PIECE)?;
    let mut bytes = Vec::new(alloc);
    loop {
        let room = (limit + 1 - bytes.len()).min(PIECE);
        let n = read_piece(input, &mut piece[..room], &mut bytes)?;
        if n == 0 {
            return Ok(Bytes::from_vec(bytes));
        }
        if bytes.len() > limit {
            return Err(InputFault::TooLong);
        }
    }
}
