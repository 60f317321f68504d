//! The contract of files that are read by name.

ghost use Rattle.std.specs.Prelude.{◌≡◌, ◌<◌, List, length, Option, Some, IfOk, IfSome, IsErrOf, IsSomeAnd};
ghost use Rattle.host_edge.specs.Folder.{ExposedFiles, file_named, RecordsRead};
ghost use Rattle.host_edge.specs.Note.{Note};
ghost use Rattle.host_edge.specs.declared.folder.FolderFault.TheVariants.{Memory};

use std::alloc::AllocError;
use thiserror::Error;

/// The reason why a file was not read.
#[derive(Clone, Copy, Debug, PartialEq, Eq, Error)]
pub enum FolderFault {
    /// The file does not exist, or reading it failed.
    #[error("the file cannot be read")]
    Failed,
    /// The file has more bytes than the limit of the call.
    #[error("the file has more than {limit} bytes")]
    TooLong { limit: u64 },
    /// There is no memory for the bytes or for the note of the read.
    #[error("no memory is left")]
    Memory,
}

impl From<AllocError> for FolderFault {
    ghost from_gives = { λ _ fault. fault ≡ Memory };

    fn from(_: AllocError) -> FolderFault {
        FolderFault::Memory
    }
}

/// Files that are read by name.
///
/// A folder keeps the allocator with which it was made, so `read_file` takes none. It adds a note
/// of each read. The number of its faults is the number of notes that failed, their `fault_count`.
pub trait Folder {
    /// The files, if the folder exposes their bytes. Of two files with one name the first counts.
    ghost files: { Self → Option ExposedFiles };

    /// The notes of the reads so far, in order.
    ghost notes: { Self → List Note };

    /// Reads the file with this name, if it has at most `limit` bytes.
    ///
    /// The error is `Failed` if the file does not exist or cannot be read, and `TooLong` if it has
    /// more bytes than the limit; the note says which. `Memory` may come before either is met, and
    /// leaves no note. No call changes the files.
    fn read_file(&mut self, name: &str, limit: u64) -> Result<Vec<u8>, FolderFault>
        ensures noted { RecordsRead (notes self.old) (notes self.new) name.now limit result }
        ensures files_kept { files self.new ≡ files self.old }

        // If the folder exposes its bytes, the result depends on the file with this name.
        ensures content { IfSome (files self.old) (λ named.
            IfOk result (λ bytes. file_named named name.now ≡ Some bytes.items)) }
        ensures longer { IfSome (files self.old) (λ named. IsErrOf result (FolderFault.TooLong limit)
            → IsSomeAnd (file_named named name.now) (λ bytes. limit < length bytes)) };
}
