//! Entries in order, each found by its id in constant time.
ghost use Rattle.std.specs.Prelude.{◌≡◌, ◌≢◌, ◌<◌, ◌≤◌, ◌++◌, ◌∷◌, [], ℤ, List, None, Some, length, map, filter, not, find, position, insert, remove, set, slice_get, option_copied, IsSome, if◌then◌else◌, AllPairs, IfOk, OnOk, OnErr, IsSomeAnd};
ghost use Rattle.std.specs.Ordering.{int_eq};
ghost use Rattle.indexmap.specs.IndexMap.{keys, values};

use indexmap::IndexMap;
use std::alloc::{AllocError, Global};
use std::marker::Model;

/// An entry that is found by its id.
pub(crate) trait Entry: Drop {
    ghost id_of: { Self → ℤ };

    fn id(&self) -> i64
        ensures { result ≡ id_of self.now };

    /// A copy of the entry.
    fn copied(&self, alloc: Global) -> Result<Self, AllocError>
        ensures { IfOk result (λ x. x ≡ self.now) };
}

/// Entries with different ids, in order.
#[derive(Drop)]
pub(crate) struct Keyed<T: Entry> {
    table: IndexMap<i64, T>,
}

impl<T: Entry> Model for Keyed<T> {
    ghost Value = { List T };

    ghost view = { λ k. values k.table };

    ghost invariant = { λ k. keys k.table ≡ map T.id_of (values k.table) };
}

impl<T: Entry> Keyed<T> {
    pub(crate) fn new(alloc: Global) -> Keyed<T>
        ensures { result ≡ [] }
    {
        Keyed {
            table: IndexMap::new(alloc),
        }
    }

    pub(crate) fn len(&self) -> usize
        ensures { result ≡ length self.now }
    {
        self.table.len()
    }

    /// The entry with the id.
    pub(crate) fn get(&self, id: i64) -> Option<&T>
        ensures { option_copied result ≡ find (λ x. int_eq (T.id_of x) id) self.now }
    {
        self.table.get(&id)
    }

    /// The place of the entry with the id, from 0.
    pub(crate) fn place_of(&self, id: i64) -> Option<usize>
        ensures place { result ≡ position (λ x. int_eq (T.id_of x) id) self.now }
        ensures found { IsSome (find (λ x. int_eq (T.id_of x) id) self.now) → IsSome result }
    {
        self.table.get_index_of(&id)
    }

    /// The entries, in order.
    pub(crate) fn as_slice(&self) -> &[T]
        ensures { result.now ≡ self.now }
    {
        self.table.values().as_slice()
    }

    /// A copy of the entries.
    pub(crate) fn copy(&self, alloc: Global) -> Result<Keyed<T>, AllocError>
        requires differ { AllPairs (λ x y. T.id_of x ≢ T.id_of y) self.now }
        ensures { IfOk result (λ k. k ≡ self.now) }
    {
        let mut copied = Keyed {
            table: IndexMap::with_capacity(alloc, self.len())?,
        };
        for entry in self.as_slice() {
            copied.push(entry.copied(alloc)?)?;
        }
        Ok(copied)
    }

    /// Appends an entry.
    pub(crate) fn push(&mut self, entry: T) -> Result<(), AllocError>
        requires new { find (λ x. int_eq (T.id_of x) (T.id_of entry)) self.old ≡ None }
        ensures ok { OnOk result (self.new ≡ self.old ++ entry ∷ []) }
        ensures err { OnErr result (self.new ≡ self.old) }
    {
        match self.table.insert(entry.id(), entry) {
            Ok(_) => Ok(()),
            Err(_) => Err(AllocError),
        }
    }

    /// Inserts an entry at the place.
    pub(crate) fn put_at(&mut self, place: usize, entry: T) -> Result<(), AllocError>
        requires new { find (λ x. int_eq (T.id_of x) (T.id_of entry)) self.old ≡ None }
        requires within { place ≤ length self.old }
        ensures ok { OnOk result (self.new ≡ insert self.old place entry) }
        ensures err { OnErr result (self.new ≡ self.old) }
    {
        match self.table.shift_insert(place, entry.id(), entry) {
            Ok(_) => Ok(()),
            Err(_) => Err(AllocError),
        }
    }

    /// Removes the entry at the place and returns it.
    fn take_at(&mut self, place: usize) -> Option<T>
        ensures entry { result ≡ slice_get self.old place }
        ensures others { self.new ≡ remove self.old place }
    {
        let (_, entry) = self.table.shift_remove_index(place)?;
        Some(entry)
    }

    /// Replaces the entry at the place, which has the same id.
    fn set_at(&mut self, place: usize, entry: T)
        requires { IsSomeAnd (slice_get self.old place) (λ x. T.id_of x ≡ T.id_of entry) }
        ensures { self.new ≡ set self.old place entry }
    {
        if let Some(slot) = self.table.get_index_mut(place) {
            *slot = entry;
        }
    }

    /// Replaces the entry that has the same id.
    pub(crate) fn set(&mut self, entry: T)
        requires differ { AllPairs (λ x y. T.id_of x ≢ T.id_of y) self.old }
        requires there { IsSome (find (λ x. int_eq (T.id_of x) (T.id_of entry)) self.old) }
        ensures { self.new ≡ map (λ x. if int_eq (T.id_of x) (T.id_of entry) then entry else x) self.old }
    {
        let place = self.place_of(entry.id()).unwrap();
        self.set_at(place, entry);
    }

    /// Removes the entry with the id.
    pub(crate) fn take(&mut self, id: i64)
        requires differ { AllPairs (λ x y. T.id_of x ≢ T.id_of y) self.old }
        requires there { IsSome (find (λ x. int_eq (T.id_of x) id) self.old) }
        ensures { self.new ≡ filter (λ x. not (int_eq (T.id_of x) id)) self.old }
    {
        let place = self.place_of(id).unwrap();
        self.take_at(place);
    }
}
