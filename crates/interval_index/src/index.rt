//! Open intervals in order, each under a key.
ghost use Rattle.std.specs.Prelude.{◌≡◌, ◌<ℤ◌, false, [], IfSome, OnOk, OnErr, IfOk, is_none};
ghost use Rattle.plane_geom.specs.Point.{IsCoordinate};
ghost use Rattle.interval_index.specs.Order.{inserted};
ghost use Rattle.interval_index.specs.Index.{IsListed, IsWidestFree, has_key, inside_any, keys_touching, without_key};

use crate::span::Span;
use crate::tree::{Node, Tree};
use plane_geom::SHEET_END;
use std::alloc::{AllocError, Global};
use std::collections::BTreeMap;
use std::marker::Model;
use std::mem;

/// Open intervals on one axis, each under its own key, in the order of `lo` and then `key`.
///
/// They are kept in an AVL tree with the greatest end of each subtree (an interval tree: Cormen,
/// Leiserson, Rivest and Stein, "Introduction to Algorithms", section 14.3). A second map leads
/// from each key to its span, so that a key alone finds its place in the tree.
#[derive(Drop)]
pub struct IntervalIndex {
    tree: Tree,
    by_key: BTreeMap<u32, Span>,
    alloc: Global,
}

impl Model for IntervalIndex {
    ghost use Rattle.std.specs.Prelude.{List};
    ghost use Rattle.interval_index.specs.declared.span.Span.{Span};

    ghost Value = { List Span };

    ghost use Rattle.interval_index.specs.Index.{IsIndex};

    ghost view = { λ a. a.tree.0 };

    ghost invariant = { λ a. IsIndex a.tree.0 a.by_key };
}

impl IntervalIndex {
    /// An index without spans. Takes no memory.
    pub fn new(alloc: Global) -> IntervalIndex
        ensures { result ≡ [] }
    {
        IntervalIndex {
            tree: Tree::new(),
            by_key: BTreeMap::new(alloc),
            alloc,
        }
    }

    /// Adds a span under a new key, in logarithmic time. Coordinates are in thousandths.
    ///
    /// The span is not empty (`lo` is below `hi`), and both its ends lie on the sheet. When out of
    /// memory, which is the only error, the index stays as it was.
    pub fn insert(&mut self, span: Span) -> Result<(), AllocError>
        requires new_key { has_key span.key self.old ≡ false }
        requires lo_within { IsCoordinate span.lo }
        requires hi_within { IsCoordinate span.hi }
        requires not_empty { span.lo <ℤ span.hi }
        ensures ok { OnOk result (self.new ≡ inserted span self.old) }
        ensures err { OnErr result (self.new ≡ self.old) }
    {
        let node = Box::new(self.alloc, Node::new(span))?;
        self.by_key.insert(span.key, span)?;
        let tree = mem::replace(&mut self.tree, Tree::new());
        self.tree = tree.insert(node);
        Ok(())
    }

    /// Removes the span under the key, in logarithmic time, and returns whether there was one.
    /// Takes no memory.
    ///
    /// The map from keys to spans gives the span's `lo`, and `lo` and key its place in the tree.
    pub fn remove(&mut self, key: u32) -> bool
        ensures present { result ≡ has_key key self.old }
        ensures rest { self.new ≡ without_key key self.old }
    {
        let Some(span) = self.by_key.remove(&key) else {
            return false;
        };
        let tree = mem::replace(&mut self.tree, Tree::new());
        self.tree = tree.remove(&span);
        true
    }

    /// The ends of the widest closed interval around the coordinate, on the sheet, that has no
    /// point inside a span. `None` where the coordinate, which lies on the sheet, is inside a span.
    /// In thousandths. Takes logarithmic time and no memory.
    pub fn free_around(&self, at: i64) -> Option<(i64, i64)>
        requires within { IsCoordinate at }
        ensures inside { is_none result ≡ inside_any at self.now }
        ensures widest { IfSome result (λ free. IsWidestFree self.now at free.0 free.1) }
        ensures listed { IsListed self.now }
    {
        let from = self.tree.greatest_end_before(at);
        if at < from {
            return None;
        }
        Some((from, self.tree.start_from(at, SHEET_END)))
    }

    /// The keys of the spans that share a point with the open interval from `lo` to `hi`, in
    /// thousandths, in the order of the index. Visits only the nodes on one path down and those
    /// with such a span below them, and takes memory for all keys of the index at once.
    pub fn touching(&self, lo: i64, hi: i64) -> Result<Vec<u32>, AllocError>
        ensures touching { IfOk result (λ keys. keys.items ≡ keys_touching lo hi self.now) }
        ensures listed { IsListed self.now }
    {
        let mut keys = Vec::with_capacity(self.alloc, self.by_key.len())?;
        if lo < hi {
            self.tree.collect(lo, hi, &mut keys)?;
        }
        Ok(keys)
    }
}
