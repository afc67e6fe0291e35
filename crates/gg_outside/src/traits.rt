// What is asked of a folder, a source and a sink.
ghost use Rattle.std.specs.Prelude.{◌≡◌, ◌<◌, ◌≤◌, [], List, ℕ, Option, length, IfOk, OnErr, OnOk};
ghost use Rattle.gg_outside.specs.Outside.{Content, Reads, Takes, HandsOver, failed_after, count_after_read, count_after_write};

use crate::{Failed, FolderFault, SinkFault};

/// A folder of files, each read whole by its name.
pub trait Folder {
    /// What each name holds, where the folder tells it.
    ghost holds: { Self → List ℕ → Content };

    /// The names whose reading failed, one for each fault, in order.
    ghost failed: { Self → List (List ℕ) };

    /// Fills `into`, which is empty before, with a file of at most `limit` bytes. After a refusal it is empty again.
    /// A missing file is `Failed`. At `Failed` the list of failed names gains this name, and at no other answer.
    fn read_whole(&mut self, name: &str, limit: u64, into: &mut Vec<u8>) -> Result<(), FolderFault>
        requires { into.old.items ≡ [] }
        ensures within { OnOk result (length into.new.items ≤ limit) }
        ensures told { Reads (holds self.old name.now) limit result into.new.items }
        ensures refused { OnErr result (into.new.items ≡ []) }
        ensures keeps { (n : List ℕ) → holds self.new n ≡ holds self.old n }
        ensures names { failed self.new ≡ failed_after (failed self.old) name.now result };
}

/// An input, read in order to its end.
pub trait Source {
    /// The bytes that are left, where the source tells them.
    ghost left: { Self → Option (List ℕ) };

    /// How often reading failed, up to the greatest value of 64 bits.
    ghost faults: { Self → ℕ };

    /// Moves the next bytes to the front of `into` and answers how many. None are moved only at the end. The count of faults
    /// rises by one at a fault, and is else as it was.
    fn read(&mut self, into: &mut [u8]) -> Result<usize, Failed>
        requires { 0 < length into.old }
        ensures within { IfOk result (λ n. n ≤ length into.new) }
        ensures told { HandsOver (left self.old) (left self.new) result into.new }
        ensures counts { faults self.new ≡ count_after_read (faults self.old) result };
}

/// An output, written in order.
pub trait Sink {
    /// The bytes that it holds, where the sink tells them.
    ghost told: { Self → Option (List ℕ) };

    /// How often writing failed, up to the greatest value of 64 bits.
    ghost faults: { Self → ℕ };

    /// Takes some bytes from the front of `piece`, one at least, and answers how many. The count of faults rises by one at
    /// `Failed`, and is else as it was.
    fn write(&mut self, piece: &[u8]) -> Result<usize, SinkFault>
        requires { 0 < length piece.now }
        ensures some { IfOk result (λ n. 0 < n) }
        ensures within { IfOk result (λ n. n ≤ length piece.now) }
        ensures takes { Takes (told self.old) (told self.new) result piece.now }
        ensures counts { faults self.new ≡ count_after_write (faults self.old) result };
}
