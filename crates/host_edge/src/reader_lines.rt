//! The lines of a reader, such as standard input.
ghost use Rattle.std.specs.Prelude.{◌≡◌, ℕ, ◌<◌, ◌≤◌, List, ◌++◌, ◌∷◌, [], length, true, false, if◌then◌else◌};
ghost use Rattle.std.specs.Prelude.{IfOk, IfSome, OnErr, OnOk, vec_capacity};
ghost use Rattle.std.specs.Io.KnownBytes.{Consumes, Keeps};
ghost use Rattle.host_edge.specs.Count.{NeverFalls, next_count};
ghost use Rattle.host_edge.specs.Lines.{IsLineRead, IsNextByte};

use crate::line_source::{LineRead, LineSource, ReadFailed};
use std::io::{ErrorKind, Read};

/// The lines of a reader. It asks for one byte at a time, so give it a reader with a buffer.
///
/// It reads no further than the line that it answers, so it waits only for the end of that line. It counts a fault if a
/// read returns an error other than `Interrupted`, after which it reads on.
#[derive(Drop)]
pub struct ReaderLines<R: Read> {
    pub reader: R,
    pub faults: u64,
}

impl<R: Read> ReaderLines<R> {
    /// The lines of the reader, without a fault so far. Takes no memory.
    pub fn new(reader: R) -> ReaderLines<R>
        ensures { result ≡ record { reader = reader; faults = 0 } }
    {
        ReaderLines { reader, faults: 0 }
    }
}

/// The next byte, or `None` at the end of the input.
fn next_byte<R: Read>(reader: &mut R) -> Result<Option<u8>, ReadFailed>
    ensures ok { IfSome (R.remaining reader.old) (λ bytes.
        IfOk result (IsNextByte bytes (R.remaining reader.new))) }
    ensures err { OnErr result (Keeps (R.remaining reader.old) (R.remaining reader.new)) }
{
    let mut byte = [0];
    for _ in 0..u64::MAX {
        match reader.read(&mut byte) {
            Ok(0) => return Ok(None),
            Ok(_) => return Ok(Some(byte[0])),
            Err(error) if error.kind() == ErrorKind::Interrupted => {}
            Err(_) => return Err(ReadFailed),
        }
    }
    Err(ReadFailed)
}

/// How a line ends that is so long in the buffer, or longer.
fn whole_or_too_long(is_long: bool) -> LineRead
    ensures { result ≡ (if is_long then LineRead.TooLong else LineRead.Whole) }
{
    if is_long {
        LineRead::TooLong
    } else {
        LineRead::Whole
    }
}

/// Puts a byte into the buffer where there is room for it under the limit, and answers whether there is none.
fn lacks_room(line: &mut Vec<u8>, byte: u8, limit: usize) -> bool
    requires { limit ≤ vec_capacity line.old }
    ensures items { line.new.items
        ≡ (if result then line.old.items else line.old.items ++ byte ∷ []) }
    ensures full { result ≡ true → limit ≤ length line.old.items }
    ensures free { result ≡ false → length line.old.items < limit }
    ensures room { vec_capacity line.new ≡ vec_capacity line.old }
{
    if line.len() >= limit {
        return true;
    }
    line.push_reserved(byte);
    false
}

/// Reads the next line of the reader into the buffer.
pub(crate) fn read_line<R: Read>(
    reader: &mut R,
    line: &mut Vec<u8>,
    limit: usize,
) -> Result<LineRead, ReadFailed>
    requires { limit ≤ vec_capacity line.old }
    ensures read { IfSome (R.remaining reader.old) (λ bytes.
        IfOk result (λ read. IsLineRead limit bytes read line.new.items (R.remaining reader.new))) }
    ensures room { vec_capacity line.new ≡ vec_capacity line.old }
    ensures taken { (bytes : List ℕ) × Consumes (R.remaining reader.old) (R.remaining reader.new) bytes }
{
    line.clear();
    let mut is_long = false;
    for _ in 0..u64::MAX {
        match next_byte(reader)? {
            None if line.is_empty() && !is_long => return Ok(LineRead::End),
            None | Some(b'\n') => return Ok(whole_or_too_long(is_long)),
            Some(byte) => is_long = lacks_room(line, byte, limit),
        }
    }
    Err(ReadFailed)
}

impl<R: Read> LineSource for ReaderLines<R> {
    ghost rest = { λ s. R.remaining s.reader };

    ghost faults = { λ s. s.faults };

    fn next_line(&mut self, line: &mut Vec<u8>, limit: usize) -> Result<LineRead, ReadFailed>
        requires { limit ≤ vec_capacity line.old }
        ensures read { IfSome (R.remaining self.old.reader) (λ bytes.
            IfOk result (λ read. IsLineRead limit bytes read line.new.items (R.remaining self.new.reader))) }
        ensures room { vec_capacity line.new ≡ vec_capacity line.old }
        ensures taken { (bytes : List ℕ) × Consumes (R.remaining self.old.reader) (R.remaining self.new.reader) bytes }

        // A fault is counted exactly if the reading fails.
        ensures ok { OnOk result (self.new.faults ≡ self.old.faults) }
        ensures err { OnErr result (self.new.faults ≡ next_count self.old.faults) }
        ensures never_falls { NeverFalls self.old.faults self.new.faults }
    {
        let read = read_line(&mut self.reader, line, limit);
        if read.is_err() {
            self.faults = self.faults.saturating_add(1);
        }
        read
    }
}
