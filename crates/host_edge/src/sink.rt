//! The contract of output.

ghost use Rattle.std.specs.Prelude.{◌≡◌, ℕ, ◌<◌, ◌≤◌, List, length, take, Option, Ok, IfOk, OnOk, OnErr};
ghost use Rattle.std.specs.Io.KnownBytes.{append_known};
ghost use Rattle.host_edge.specs.Count.{Rose, NeverFalls};
ghost use Rattle.host_edge.specs.Sink.{AppendsPart};

use thiserror::Error;

/// The sink met a fault, and took no byte of a piece.
#[derive(Clone, Copy, Debug, PartialEq, Eq, Error)]
#[error("the output cannot be written")]
pub struct WriteFailed;

/// Output that takes bytes piece by piece, and counts its faults.
pub trait Sink {
    /// The bytes that were written, if the sink exposes them.
    ghost held: { Self → Option (List ℕ) };

    /// The number of faults that the sink met. It begins at 0, and stays at 2^64 - 1 once it is
    /// reached.
    ghost faults: { Self → ℕ };

    /// Writes the first bytes of a piece, at least one if it has any, and returns their number. For
    /// an empty piece that is 0, and nothing is counted.
    ///
    /// The error is `WriteFailed`, only if a fault was counted; then nothing was written.
    fn write(&mut self, bytes: &[u8]) -> Result<usize, WriteFailed>
        ensures put { IfOk result (λ n.
            held self.new ≡ append_known (held self.old) (take n bytes.now)) }
        ensures within { IfOk result (λ n. n ≤ length bytes.now) }
        ensures progress { IfOk result (λ n. 0 < length bytes.now → 0 < n) }

        // An empty piece does not count as a call.
        ensures empty { length bytes.now ≡ 0 → (result ≡ Ok 0)
            × (held self.new ≡ held self.old) × (faults self.new ≡ faults self.old) }

        // Only a fault refuses a piece, and then nothing was written.
        ensures refused { OnErr result (held self.new ≡ held self.old) }
        ensures rose { OnErr result (Rose (faults self.old) (faults self.new)) }
        ensures never_falls { NeverFalls (faults self.old) (faults self.new) };
}

/// Writes all the bytes, in as many calls as the sink needs. Takes no memory of its own.
///
/// After an error, only a first part of the bytes was written, and the sink met a fault.
pub fn write_all_to<S: Sink>(out: &mut S, bytes: &[u8]) -> Result<(), WriteFailed>
    ensures put { OnOk result (S.held out.new ≡ append_known (S.held out.old) bytes.now) }
    ensures part { OnErr result (AppendsPart (S.held out.old) (S.held out.new) bytes.now) }
    ensures rose { OnErr result (Rose (S.faults out.old) (S.faults out.new)) }
    ensures never_falls { NeverFalls (S.faults out.old) (S.faults out.new) }
    ensures empty { length bytes.now ≡ 0 → S.faults out.new ≡ S.faults out.old }
{
    let mut written = 0;
    while written < bytes.len() {
        written += out.write(&bytes[written..])?;
    }
    Ok(())
}
