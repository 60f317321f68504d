//! The files on disk.

ghost use Rattle.std.specs.Prelude.{◌≡◌, ◌+◌, ◌<◌, ◌↔◌, [], ◌++◌, take, vec_len, None, IfOk, IfSome, IsTrue, OnOk};

use crate::folder::{Folder, FolderFault};
use crate::note::{StoredNote, reserve_note};
use std::alloc::Global;
use std::fs::File;
use std::io;
use std::io::{ErrorKind, Read};
use std::marker::Model;
use std::rt::Files;

/// The files on disk, whose bytes are opaque to contracts.
#[derive(Drop)]
pub struct DiskFolder<'a, R: Files> {
    rt: &'a R,
    notes: Vec<StoredNote>,
    alloc: Global,
}

// The model is the notes alone.
impl<'a, R: Files> Model for DiskFolder<'a, R> {
    ghost use Rattle.std.specs.Prelude.{List};
    ghost use Rattle.host_edge.specs.Note.{Note};

    ghost Value = { List Note };

    ghost view = { λ f. f.notes.items };
}

impl<'a, R: Files> DiskFolder<'a, R> {
    /// The files that `rt` reaches. Takes no memory.
    pub fn new(alloc: Global, rt: &'a R) -> DiskFolder<'a, R>
        ensures { result ≡ [] }
    {
        DiskFolder {
            rt,
            notes: Vec::new(alloc),
            alloc,
        }
    }
}

/// Reads to the end, or to the first byte beyond the limit, and returns whether there is such a
/// byte.
fn read_past<R: Read + Drop>(reader: R, limit: u64, bytes: &mut Vec<u8>) -> io::Result<bool>
    ensures read { OnOk result (IfSome (R.remaining reader) (λ rest.
        bytes.new.items ≡ bytes.old.items ++ take (limit + 1) rest)) }
    ensures longer { IfOk result (λ longer.
        IsTrue longer ↔ (vec_len bytes.old + limit < vec_len bytes.new)) }
{
    let count = reader.take(limit.saturating_add(1)).read_to_end(bytes)?;
    Ok(count as u64 > limit)
}

impl<'a, R: Files> Folder for DiskFolder<'a, R> {
    ghost files = { λ _. None };

    ghost notes = { λ f. f };

    fn read_file(&mut self, name: &str, limit: u64) -> Result<Vec<u8>, FolderFault> {
        let note_name = reserve_note(self.alloc, &mut self.notes, name)?;
        let mut bytes = Vec::new(self.alloc);
        let read = match File::open(self.rt, name) {
            Ok(file) => read_past(file, limit, &mut bytes),
            Err(error) => Err(error),
        };
        let taken = bytes.len() as u64;
        let (failed, answer) = match read {
            Ok(false) => (false, Ok(bytes)),
            Ok(true) => (false, Err(FolderFault::TooLong { limit })),
            Err(error) if error.kind() == ErrorKind::OutOfMemory => return Err(FolderFault::Memory),
            Err(_) => (true, Err(FolderFault::Failed)),
        };
        self.notes.push_reserved(StoredNote {
            name: note_name,
            limit,
            taken,
            failed,
        });
        answer
    }
}
