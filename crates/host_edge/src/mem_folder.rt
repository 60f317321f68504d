//! Files in memory.

ghost use Rattle.std.specs.Prelude.{◌≡◌, ◌≢◌, ◌<◌, [], ◌∷◌, ◌++◌, map, length, Some, None, IfOk, IsErrOf, IsSomeAnd, Err, option_map};
ghost use Rattle.host_edge.specs.Folder.{file_named, RecordsRead};
ghost use Rattle.host_edge.specs.MemFolder.{exposed_file, next_note};

use crate::folder::{Folder, FolderFault};
use crate::note::{StoredNote, reserve_note};
use std::alloc::Global;
use std::marker::Model;

/// A file in memory.
#[derive(Debug, Drop, PartialEq, Eq)]
pub struct NamedFile {
    pub name: String,
    pub bytes: Vec<u8>,
}

/// A folder in memory, which exposes its bytes.
///
/// Its calls are counted from 1. A call that runs out of memory adds no note and is not counted, so
/// the next call has its number.
#[derive(Debug, Drop)]
pub struct MemFolder {
    files: Vec<NamedFile>,
    fails: Vec<u64>,
    notes: Vec<StoredNote>,
    alloc: Global,
}

impl Model for MemFolder {
    ghost use Rattle.std.specs.Prelude.{map};
    ghost use Rattle.host_edge.specs.MemFolder.{MemFolderState, exposed_file};

    ghost Value = { MemFolderState };

    ghost view = { λ f. record {
      files = map exposed_file f.files.items;
      fails = f.fails.items;
      notes = f.notes.items;
    } };
}

impl MemFolder {
    /// A folder with these files, in which the calls with the numbers in `fails` fail. Takes no
    /// memory.
    pub fn new(alloc: Global, files: Vec<NamedFile>, fails: Vec<u64>) -> MemFolder
        ensures files { result.files ≡ map exposed_file files.items }
        ensures fails { result.fails ≡ fails.items }
        ensures notes { result.notes ≡ [] }
    {
        MemFolder {
            files,
            fails,
            notes: Vec::new(alloc),
            alloc,
        }
    }
}

/// The first file with this name.
fn first_named<'a>(files: &'a [NamedFile], name: &str) -> Option<&'a NamedFile>
    ensures { file_named (map exposed_file files.now) name.now
        ≡ option_map (λ file. file.now.bytes.items) result }
{
    files.iter().find(|file| file.name.as_str() == name)
}

impl Folder for MemFolder {
    ghost files = { λ f. Some f.files };

    ghost notes = { λ f. f.notes };

    fn read_file(&mut self, name: &str, limit: u64) -> Result<Vec<u8>, FolderFault>
        ensures noted { RecordsRead self.old.notes self.new.notes name.now limit result }
        ensures files_kept { self.new.files ≡ self.old.files }
        ensures content { IfOk result (λ bytes.
            file_named self.old.files name.now ≡ Some bytes.items) }
        ensures longer { IsErrOf result (FolderFault.TooLong limit)
            → IsSomeAnd (file_named self.old.files name.now) (λ bytes. limit < length bytes) }

        // A call fails exactly if its number is in the list or no file has the name.
        ensures fails_kept { self.new.fails ≡ self.old.fails }
        ensures note { result ≢ Err FolderFault.Memory
            → self.new.notes ≡ self.old.notes ++ next_note self.old name.now limit ∷ [] }
    {
        let note_name = reserve_note(self.alloc, &mut self.notes, name)?;
        let call = self.notes.len() as u64 + 1;
        let file = if self.fails.contains(&call) {
            None
        } else {
            first_named(&self.files, name)
        };
        let failed = file.is_none();
        let (taken, answer) = match file {
            None => (0, Err(FolderFault::Failed)),
            Some(file) if file.bytes.len() as u64 > limit => {
                (limit + 1, Err(FolderFault::TooLong { limit }))
            }
            Some(file) => {
                let bytes = Vec::from_slice(self.alloc, &file.bytes)?;
                (bytes.len() as u64, Ok(bytes))
            }
        };
        self.notes.push_reserved(StoredNote {
            name: note_name,
            limit,
            taken,
            failed,
        });
        answer
    }
}
