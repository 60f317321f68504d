//! A balanced tree of spans that keeps the greatest end of each subtree.
// An AVL tree of spans; its model is the list of spans in order and its height.
ghost use Rattle.std.specs.Prelude.{◌≡◌, ◌+◌, ◌^◌, ◌<◌, ◌≤◌, max, [], ◌∷◌, ◌++◌, length, OnOk, MatchOption};
ghost use Rattle.interval_index.specs.Order.{IsSorted, inserted, is_before, without};
ghost use Rattle.interval_index.specs.Ends.{greatest_end, keys_met, greatest_end_before, start_from};
ghost use Rattle.interval_index.specs.Height.{DifferByAtMost, IsLow};
ghost use Rattle.interval_index.specs.Tree.{IsFirstAndRest, IsSoundNode};

use crate::span::Span;
use plane_geom::SHEET_START;
use std::alloc::AllocError;
use std::marker::Model;
use std::mem;

#[cycle(tree)]
#[derive(Drop)]
pub struct Tree {
    root: Option<Box<Node>>,
}

// What a node keeps is correct only while the node is in a tree.
#[cycle(tree)]
#[derive(Drop)]
pub struct Node {
    span: Span,
    // The greatest end among the spans from here down.
    greatest_end: i64,
    height: u64,
    left: Tree,
    right: Tree,
}

impl Model for Tree {
    ghost use Rattle.std.specs.Prelude.{ℕ, List, length};
    ghost use Rattle.interval_index.specs.declared.span.Span.{Span};

    ghost Value = { List Span × ℕ };

    ghost use Rattle.interval_index.specs.Tree.{spans_and_height, IsSound};

    ghost view = { λ a. spans_and_height a.root };

    ghost invariant = { λ a. IsSound a.root };

    ghost size = { λ d. length d.0 };

    ghost use Rattle.std.proofs.Common.{arith, length-append};

    ghost size_decreases = { λ a h. Prim.grind (arith, length-append) };
}

impl Node {
    /// A node that is in no tree yet.
    pub fn new(span: Span) -> Node
        ensures { result.span ≡ span }
    {
        Node {
            span,
            greatest_end: span.hi,
            height: 1,
            left: Tree::new(),
            right: Tree::new(),
        }
    }
}

// Takes both trees below the node out of it.
fn take_sides(node: &mut Node) -> (Tree, Tree)
    ensures left { result.0 ≡ node.old.left }
    ensures right { result.1 ≡ node.old.right }
    ensures span { node.new.span ≡ node.old.span }
{
    let left = mem::replace(&mut node.left, Tree::new());
    let right = mem::replace(&mut node.right, Tree::new());
    (left, right)
}

impl Tree {
    pub fn new() -> Tree
        ensures { result ≡ ([], 0) }
    {
        Tree { root: None }
    }

    /// The height, at most twice the binary logarithm of the number of spans plus 1.
    pub fn height(&self) -> u64
        ensures height { result ≡ self.now.1 }
        ensures low { IsLow self.now.1 (length self.now.0) }
    {
        match &self.root {
            None => 0,
            Some(node) => node.height,
        }
    }

    /// The greatest end of the spans, or the start of the sheet.
    fn greatest_end(&self) -> i64
        ensures { result ≡ greatest_end self.now.0 }
    {
        match &self.root {
            None => SHEET_START,
            Some(node) => node.greatest_end,
        }
    }

    /// Adds the span of a new node.
    pub fn insert(self, new: Box<Node>) -> Tree
        requires sorted { IsSorted self.0 }
        requires fits { length self.0 < 2 ^ 62 }
        ensures spans { result.0 ≡ inserted new.value.span self.0 }
        ensures not_lower { self.1 ≤ result.1 }
        ensures at_most_one_higher { result.1 ≤ self.1 + 1 }
    {
        let Some(mut node) = self.root else {
            return fork(Tree::new(), new, Tree::new());
        };
        let (left, right) = take_sides(&mut node);
        if new.span.is_before(&node.span) {
            balanced(left.insert(new), node, right)
        } else {
            balanced(left, node, right.insert(new))
        }
    }

    /// Removes the span that is neither before nor after `span`.
    pub fn remove(self, span: &Span) -> Tree
        requires sorted { IsSorted self.0 }
        requires fits { length self.0 < 2 ^ 62 }
        ensures spans { result.0 ≡ without span.now self.0 }
        ensures not_higher { result.1 ≤ self.1 }
        ensures at_most_one_lower { self.1 ≤ result.1 + 1 }
    {
        let Some(mut node) = self.root else {
            return Tree::new();
        };
        let (left, right) = take_sides(&mut node);
        if span.is_before(&node.span) {
            balanced(left.remove(span), node, right)
        } else if node.span.is_before(span) {
            balanced(left, node, right.remove(span))
        } else {
            joined(left, right)
        }
    }

    /// The node of the first span, and the tree of the others.
    fn pop_first(self) -> Option<(Box<Node>, Tree)>
        requires fits { length self.0 < 2 ^ 62 }
        ensures { MatchOption result (self.0 ≡ []) (λ p. IsFirstAndRest self p.0.value.span p.1) }
    {
        let Some(mut node) = self.root else {
            return None;
        };
        let (left, right) = take_sides(&mut node);
        match left.pop_first() {
            None => Some((node, right)),
            Some((first, left)) => Some((first, balanced(left, node, right))),
        }
    }

    /// The greatest end of the spans that begin before the coordinate, or the start of the sheet.
    pub fn greatest_end_before(&self, at: i64) -> i64
        requires sorted { IsSorted self.now.0 }
        ensures { result ≡ greatest_end_before at self.now.0 }
    {
        match &self.root {
            None => SHEET_START,
            Some(node) => {
                if node.span.lo < at {
                    let right = node.right.greatest_end_before(at);
                    node.left.greatest_end().max(node.span.hi).max(right)
                } else {
                    node.left.greatest_end_before(at)
                }
            }
        }
    }

    /// The begin of the first span that begins at the coordinate or after it; `otherwise` if there
    /// is none.
    pub fn start_from(&self, at: i64, otherwise: i64) -> i64
        requires sorted { IsSorted self.now.0 }
        ensures { result ≡ start_from at otherwise self.now.0 }
    {
        match &self.root {
            None => otherwise,
            Some(node) => {
                if node.span.lo < at {
                    node.right.start_from(at, otherwise)
                } else {
                    node.left.start_from(at, node.span.lo)
                }
            }
        }
    }

    /// Appends the keys of the spans that begin before `hi` and end after `lo`, in order.
    ///
    /// Goes down only where a span ends after `lo`.
    pub fn collect(&self, lo: i64, hi: i64, keys: &mut Vec<u32>) -> Result<(), AllocError>
        requires sorted { IsSorted self.now.0 }
        ensures { OnOk result (keys.new.items ≡ keys.old.items ++ keys_met lo hi self.now.0) }
    {
        let Some(node) = &self.root else {
            return Ok(());
        };
        if node.greatest_end <= lo {
            return Ok(());
        }
        node.left.collect(lo, hi, keys)?;
        if node.span.lo >= hi {
            return Ok(());
        }
        push_meeting(&node.span, lo, hi, keys)?;
        node.right.collect(lo, hi, keys)
    }
}

// Appends the span's key if it ends after `lo`. It begins before `hi`.
fn push_meeting(span: &Span, lo: i64, hi: i64, keys: &mut Vec<u32>) -> Result<(), AllocError>
    ensures { OnOk result (keys.new.items ≡ keys.old.items ++ keys_met lo hi (span.now ∷ [])) }
{
    if span.lo < hi && lo < span.hi {
        keys.push(span.key)?;
    }
    Ok(())
}

// The node with these trees as its sides.
fn fork(left: Tree, mut node: Box<Node>, right: Tree) -> Tree
    requires level { DifferByAtMost 1 left.1 right.1 }
    requires fits { length left.0 + length right.0 < 2 ^ 62 }
    ensures { result ≡ (left.0 ++ node.value.span ∷ right.0, max left.1 right.1 + 1) }
{
    put_sides(&mut node, left, right);
    Tree { root: Some(node) }
}

// Puts the trees below the node, and updates what it keeps.
fn put_sides(node: &mut Node, left: Tree, right: Tree)
    requires level { DifferByAtMost 1 left.1 right.1 }
    requires fits { length left.0 + length right.0 < 2 ^ 62 }
    ensures left { node.new.left ≡ left }
    ensures right { node.new.right ≡ right }
    ensures span { node.new.span ≡ node.old.span }
    ensures sound { IsSoundNode node.new }
{
    node.height = left.height().max(right.height()) + 1;
    node.greatest_end = left
        .greatest_end()
        .max(node.span.hi)
        .max(right.greatest_end());
    node.left = left;
    node.right = right;
}

// The same spans in order, balanced, where one side may be two levels higher than the other.
fn balanced(left: Tree, node: Box<Node>, right: Tree) -> Tree
    requires nearly_level { DifferByAtMost 2 left.1 right.1 }
    requires fits { length left.0 + length right.0 < 2 ^ 62 }
    ensures spans { result.0 ≡ left.0 ++ node.value.span ∷ right.0 }
    ensures not_lower { max left.1 right.1 ≤ result.1 }
    ensures at_most_one_higher { result.1 ≤ max left.1 right.1 + 1 }
    ensures level { DifferByAtMost 1 left.1 right.1 → result.1 ≡ max left.1 right.1 + 1 }
{
    let (left_height, right_height) = (left.height(), right.height());
    if left_height > right_height + 1 {
        raise_left(left, node, right)
    } else if right_height > left_height + 1 {
        raise_right(left, node, right)
    } else {
        fork(left, node, right)
    }
}

// Rotates up what is below the left side, which is two levels higher.
fn raise_left(left: Tree, node: Box<Node>, right: Tree) -> Tree
    requires two_higher { left.1 ≡ right.1 + 2 }
    requires fits { length left.0 + length right.0 < 2 ^ 62 }
    ensures spans { result.0 ≡ left.0 ++ node.value.span ∷ right.0 }
    ensures not_lower { left.1 ≤ result.1 }
    ensures at_most_one_higher { result.1 ≤ left.1 + 1 }
{
    let Some(mut top) = left.root else {
        unreachable!()
    };
    let (outer, inner) = take_sides(&mut top);
    if outer.height() >= inner.height() {
        return fork(outer, top, fork(inner, node, right));
    }
    let Some(mut middle) = inner.root else {
        unreachable!()
    };
    let (before, after) = take_sides(&mut middle);
    fork(fork(outer, top, before), middle, fork(after, node, right))
}

// Rotates up what is below the right side, which is two levels higher.
fn raise_right(left: Tree, node: Box<Node>, right: Tree) -> Tree
    requires two_higher { right.1 ≡ left.1 + 2 }
    requires fits { length left.0 + length right.0 < 2 ^ 62 }
    ensures spans { result.0 ≡ left.0 ++ node.value.span ∷ right.0 }
    ensures not_lower { right.1 ≤ result.1 }
    ensures at_most_one_higher { result.1 ≤ right.1 + 1 }
{
    let Some(mut top) = right.root else {
        unreachable!()
    };
    let (inner, outer) = take_sides(&mut top);
    if outer.height() >= inner.height() {
        return fork(fork(left, node, inner), top, outer);
    }
    let Some(mut middle) = inner.root else {
        unreachable!()
    };
    let (before, after) = take_sides(&mut middle);
    fork(fork(left, node, before), middle, fork(after, top, outer))
}

// The spans of both, where the left ones come before the right ones.
fn joined(left: Tree, right: Tree) -> Tree
    requires level { DifferByAtMost 1 left.1 right.1 }
    requires fits { length left.0 + length right.0 < 2 ^ 62 }
    ensures spans { result.0 ≡ left.0 ++ right.0 }
    ensures not_lower { max left.1 right.1 ≤ result.1 }
    ensures at_most_one_higher { result.1 ≤ max left.1 right.1 + 1 }
{
    match right.pop_first() {
        None => left,
        Some((first, rest)) => balanced(left, first, rest),
    }
}
