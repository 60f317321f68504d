//! Pairs of values under ids.
ghost use Rattle.std.specs.Prelude.{◌≡◌, ◌≢◌, ◌+◌, ◌<◌, ◌≤◌, Some, None, [], OnOk, max};
ghost use Rattle.slab.specs.Slab.{Updates, slab_len};
ghost use Rattle.line_arena.specs.Entries.{entry_at};

use crate::room::make_places;
use slab::Slab;
use std::alloc::{AllocError, Global};
use std::marker::Model;

/// Entries under their ids, each with a key that stays and a value that may change.
#[derive(Drop)]
pub struct Entries<K: Copy, V: Copy> {
    slab: Slab<(K, V)>,
    // The number of entries for which room was made.
    room: usize,
}

impl<K: Copy, V: Copy> Model for Entries<K, V> {
    ghost use Rattle.line_arena.specs.Entries.{Entered, entered_code, HasRoom};

    ghost Value = { Entered K V };

    ghost coded = { entered_code K.code V.code };

    ghost view = { λ a. record { slab = a.slab; room = a.room } };

    ghost invariant = { λ a. HasRoom a.slab a.room };
}

impl<K: Copy, V: Copy> Entries<K, V> {
    pub fn new(alloc: Global) -> Entries<K, V>
        ensures slots { result.slab.slots ≡ [] }
        ensures capacity { result.slab.capacity ≡ 0 }
        ensures room { result.room ≡ 0 }
    {
        Entries {
            slab: Slab::new(alloc),
            room: 0,
        }
    }

    /// Makes room for `more` more entries.
    pub fn reserve(&mut self, more: usize) -> Result<(), AllocError>
        ensures slots { self.new.slab.slots ≡ self.old.slab.slots }
        ensures capacity { self.old.slab.capacity ≤ self.new.slab.capacity }
        ensures had_room { slab_len self.old.slab + more ≤ self.old.room →
            self.new.slab.capacity ≡ self.old.slab.capacity }
        ensures within { slab_len self.old.slab ≤ self.old.room }
        ensures room { self.old.room ≤ self.new.room }
        ensures no_more { self.new.room ≤ max self.old.room (slab_len self.old.slab + more) }
        ensures ok { OnOk result (slab_len self.old.slab + more ≤ self.new.room) }
    {
        make_places(&mut self.slab, more)?;
        // The capacity fits a `usize`, and so does the sum, which is not greater.
        let _ = self.slab.capacity();
        self.room = self.room.max(self.slab.len() + more);
        Ok(())
    }

    /// Adds an entry, and takes no memory.
    pub fn insert(&mut self, key: K, value: V) -> usize
        requires { slab_len self.old.slab < self.old.room }
        ensures new_id { entry_at self.old result ≡ None }
        ensures updates { Updates self.old.slab self.new.slab result (Some (key, value)) }
        ensures len { slab_len self.new.slab ≡ slab_len self.old.slab + 1 }
        ensures room { self.new.room ≡ self.old.room }
        ensures capacity { self.new.slab.capacity ≡ self.old.slab.capacity }
        ensures within { result < usize.MAX }
    {
        let id = self.slab.insert_reserved((key, value));
        // The capacity fits a `usize`, and the id is below it.
        let _ = self.slab.capacity();
        id
    }

    /// Removes an entry.
    pub fn remove(&mut self, id: usize)
        requires { entry_at self.old id ≢ None }
        ensures updates { Updates self.old.slab self.new.slab id None }
        ensures len { slab_len self.new.slab + 1 ≡ slab_len self.old.slab }
        ensures room { self.new.room ≡ self.old.room }
        ensures kept_within { slab_len self.old.slab ≤ self.old.room }
        ensures capacity { self.new.slab.capacity ≡ self.old.slab.capacity }
    {
        self.slab.remove(id);
    }

    /// The entry under an id.
    pub fn get(&self, id: usize) -> &(K, V)
        requires { entry_at self.now id ≢ None }
        ensures { entry_at self.now id ≡ Some result.now }
    {
        &self.slab[id]
    }

    /// Changes the value of the entry under an id.
    pub fn set(&mut self, id: usize, value: V)
        requires { entry_at self.old id ≢ None }
        ensures updates { (e : K × V) → entry_at self.old id ≡ Some e →
            Updates self.old.slab self.new.slab id (Some (e.0, value)) }
        ensures len { slab_len self.new.slab ≡ slab_len self.old.slab }
        ensures room { self.new.room ≡ self.old.room }
        ensures capacity { self.new.slab.capacity ≡ self.old.slab.capacity }
    {
        self.slab[id].1 = value;
    }

    /// The id of an entry that is there, below `places`. Reads no entry.
    pub fn index(&self, id: usize) -> usize
        requires { entry_at self.now id ≢ None }
        ensures same { result ≡ id }
        ensures within { id < self.now.slab.capacity }
    {
        let _ = self.slab.capacity();
        id
    }

    /// A number that is greater than each id.
    pub fn places(&self) -> usize
        ensures { result ≡ self.now.slab.capacity }
    {
        self.slab.capacity()
    }
}
