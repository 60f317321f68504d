//! What contracts ask of input that is read line by line.
ghost use Rattle.std.specs.Prelude.{◌≡◌, ◌≤◌, ℕ, List, Option, IfOk, IfSome, OnErr, vec_capacity};
ghost use Rattle.std.specs.Io.KnownBytes.{Consumes};
ghost use Rattle.host_edge.specs.Count.{NeverFalls, Rose};
ghost use Rattle.host_edge.specs.Lines.{IsLineRead};

use thiserror::Error;

/// What a read of a line found.
#[derive(Clone, Copy, Debug, PartialEq, Eq)]
pub enum LineRead {
    /// A line, which stands in the buffer without the line feed that ends it.
    Whole,
    /// A line of more bytes than the limit. It was read to its end, and the buffer has its first bytes.
    TooLong,
    /// The input has ended.
    End,
}

/// The input cannot be read: the source met a fault.
#[derive(Clone, Copy, Debug, PartialEq, Eq, Error)]
#[error("the input cannot be read")]
pub struct ReadFailed;

/// Input that is read line by line, and that counts its faults.
///
/// A line ends at a line feed or with the input. Reading takes no memory.
pub trait LineSource {
    /// The bytes that are still to be read, where the source exposes them.
    ghost rest: { Self → Option (List ℕ) };

    /// The number of faults that the source met. It begins at 0, and stays at 2^64 - 1 once it is
    /// reached.
    ghost faults: { Self → ℕ };

    /// Reads the next line into the buffer, in place of what stands there, and answers once the line has ended.
    ///
    /// The limit is in bytes, and the buffer has room for them. The error is `ReadFailed`, only if a fault was counted.
    /// Bytes that were read before it are lost, and the next read goes on after them.
    fn next_line(&mut self, line: &mut Vec<u8>, limit: usize) -> Result<LineRead, ReadFailed>
        requires { limit ≤ vec_capacity line.old }
        ensures read { IfSome (rest self.old) (λ bytes.
            IfOk result (λ read. IsLineRead limit bytes read line.new.items (rest self.new))) }
        ensures room { vec_capacity line.new ≡ vec_capacity line.old }

        // Whatever the answer is, bytes are only taken from the front.
        ensures taken { (bytes : List ℕ) × Consumes (rest self.old) (rest self.new) bytes }

        // Only a fault ends the reading early.
        ensures rose { OnErr result (Rose (faults self.old) (faults self.new)) }
        ensures never_falls { NeverFalls (faults self.old) (faults self.new) };
}
