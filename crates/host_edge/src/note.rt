//! The notes of a folder, as they are kept.

ghost use Rattle.std.specs.Prelude.{◌≡◌, ◌<◌, IfOk, OnOk, string_bytes, vec_len, vec_capacity};

use std::alloc::{AllocError, Global};
use std::marker::Model;

/// One read: the name and limit that were asked for, and its result.
#[derive(Debug, Drop)]
pub(crate) struct StoredNote {
    pub(crate) name: String,
    pub(crate) limit: u64,
    pub(crate) taken: u64,
    pub(crate) failed: bool,
}

impl Model for StoredNote {
    ghost use Rattle.std.specs.Prelude.{string_bytes};
    ghost use Rattle.host_edge.specs.Note.{Note};

    ghost Value = { Note };

    ghost view = { λ n. record {
      name = string_bytes n.name;
      limit = n.limit;
      taken = n.taken;
      failed = n.failed;
    } };
}

/// Reserves the memory for a note of a read of this name, and returns the note's copy of the name.
pub(crate) fn reserve_note(
    alloc: Global,
    notes: &mut Vec<StoredNote>,
    name: &str,
) -> Result<String, AllocError>
    ensures notes { notes.new.items ≡ notes.old.items }
    ensures reserved { OnOk result (vec_len notes.new < vec_capacity notes.new) }
    ensures name { IfOk result (λ copy. string_bytes copy ≡ name.now) }
{
    notes.reserve(1)?;
    String::from_str(alloc, name)
}
