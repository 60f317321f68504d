//! Numbers in classes, as trees that are joined two at a time (union-find).
ghost use Rattle.std.specs.Prelude.{◌≡◌, ℕ, ◌<◌, [], All, IfOk, EachIndex, length, map, slice_set, slice_index};
ghost use Rattle.channel_bundles.specs.Classes.{AreClasses, AreTreeNumbers, Connected, IsForest, LeadsUp, LeadsUpOr};
ghost use Rattle.channel_bundles.specs.Groups.{AreGroups, AreTogether};
ghost use Rattle.channel_bundles.specs.Shares.{AreSeats};

use bumpalo::Bump;
use std::alloc::AllocError;

/// Numbers from 0 in trees. Above each number is a smaller one of its tree; above a root is the
/// root itself.
#[derive(Drop)]
pub(crate) struct Forest<'a> {
    above: Vec<usize, &'a Bump>,
}

/// The class that a number is in, and its place there.
#[derive(Clone, Copy)]
pub(crate) struct Seat {
    pub(crate) class: usize,
    pub(crate) place: usize,
}

/// The numbers of each class, in order, and for each number its seat.
#[derive(Drop)]
pub(crate) struct Classes<'a> {
    pub(crate) lists: Vec<Vec<usize, &'a Bump>, &'a Bump>,
    pub(crate) seats: Vec<Seat, &'a Bump>,
}

/// The roots of the trees, and for each number which root it has.
#[derive(Drop)]
struct TreeNumbers<'a> {
    roots: Vec<usize, &'a Bump>,
    numbers: Vec<usize, &'a Bump>,
}

impl<'a> Forest<'a> {
    /// The numbers below `count`, each a tree by itself.
    pub(crate) fn new(bump: &'a Bump, count: usize) -> Result<Forest<'a>, AllocError>
        ensures count { IfOk result (λ f. length f.above.items ≡ count) }
        ensures apart { IfOk result (λ f. EachIndex f.above.items (λ k. slice_index f.above.items k ≡ k)) }
    {
        let mut above = Vec::with_capacity(bump, count)?;
        for number in 0..count {
            above.push(number)?;
        }
        Ok(Forest { above })
    }

    /// Puts `number` below what is above `other`, and returns what was above it.
    fn lift(&mut self, number: usize, other: usize) -> usize
        requires number { number < length self.old.above.items }
        requires other { other < length self.old.above.items }
        ensures above { self.new.above.items ≡
            slice_set self.old.above.items number (slice_index self.old.above.items other) }
        ensures was { result ≡ slice_index self.old.above.items number }
    {
        let was = self.above[number];
        self.above[number] = self.above[other];
        was
    }

    /// Joins the trees of the two numbers.
    ///
    /// On the way up, each number that is passed is put below a smaller one, so that later ways are
    /// short.
    pub(crate) fn join(&mut self, a: usize, b: usize)
        requires forest { IsForest self.old.above.items }
        requires a { a < length self.old.above.items }
        requires b { b < length self.old.above.items }
        ensures forest { IsForest self.new.above.items }
        ensures count { length self.new.above.items ≡ length self.old.above.items }
        ensures kept { (i j : ℕ) → LeadsUp self.old.above.items i j → Connected (LeadsUp self.new.above.items) i j }
        ensures joined { Connected (LeadsUp self.new.above.items) a b }
        ensures only { (i j : ℕ) → LeadsUp self.new.above.items i j → Connected (LeadsUpOr self.old.above.items a b) i j }
    {
        let (mut low, mut high) = (a, b);
        loop {
            let (p, q) = (self.above[low], self.above[high]);
            if p == q {
                return;
            }
            if p < q {
                let next = self.lift(high, low);
                if next == high {
                    return;
                }
                high = next;
            } else {
                let next = self.lift(low, high);
                if next == low {
                    return;
                }
                low = next;
            }
        }
    }

    /// Numbers the trees by their roots.
    fn tree_numbers<'b>(&self, bump: &'b Bump) -> Result<TreeNumbers<'b>, AllocError>
        requires { IsForest self.now.above.items }
        ensures { IfOk result (λ t. AreTreeNumbers self.now.above.items (length self.now.above.items)
            t.roots.items t.numbers.items) }
    {
        let mut roots = Vec::with_capacity(bump, self.above.len())?;
        let mut numbers = Vec::with_capacity(bump, self.above.len())?;
        for number in 0..self.above.len() {
            let above = self.above[number];
            if above == number {
                numbers.push(roots.len())?;
                roots.push(number)?;
            } else {
                let tree = numbers[above];
                numbers.push(tree)?;
            }
        }
        Ok(TreeNumbers { roots, numbers })
    }

    /// The number of the tree of each number.
    pub(crate) fn numbers<'b>(&self, bump: &'b Bump) -> Result<Vec<usize, &'b Bump>, AllocError>
        requires { IsForest self.now.above.items }
        ensures groups { IfOk result (λ numbers. AreGroups (length self.now.above.items) numbers.items) }
        ensures together { IfOk result (λ numbers. (i j : ℕ) → Connected (LeadsUp self.now.above.items) i j →
            AreTogether numbers.items i j) }
    {
        let trees = self.tree_numbers(bump)?;
        Ok(trees.numbers)
    }

    /// The numbers of each tree, in order, the trees by their first numbers, and the seat of each
    /// number. The only error is out of memory.
    pub(crate) fn classes<'b>(&self, bump: &'b Bump) -> Result<Classes<'b>, AllocError>
        requires { IsForest self.now.above.items }
        ensures classes { IfOk result (λ c. AreClasses (Connected (LeadsUp self.now.above.items)) (length self.now.above.items)
            (map (λ list. list.items) c.lists.items)) }
        ensures seats { IfOk result (λ c. AreSeats (length self.now.above.items) (map (λ list. list.items) c.lists.items) c.seats.items) }
    {
        let trees = self.tree_numbers(bump)?;
        let sizes = sizes_of(bump, trees.roots.len(), &trees.numbers)?;
        let mut lists = empty_lists(bump, &sizes)?;
        let mut seats = Vec::with_capacity(bump, trees.numbers.len())?;
        for (number, tree) in trees.numbers.iter().enumerate() {
            let list = &mut lists[*tree];
            seats.push(Seat {
                class: *tree,
                place: list.len(),
            })?;
            list.push(number)?;
        }
        Ok(Classes { lists, seats })
    }
}

/// How often each number below `count` is among the numbers: so much room its list takes.
fn sizes_of<'a>(
    bump: &'a Bump,
    count: usize,
    numbers: &[usize],
) -> Result<Vec<usize, &'a Bump>, AllocError>
    requires { All (λ n. n < count) numbers.now }
    ensures { IfOk result (λ sizes. length sizes.items ≡ count) }
{
    let mut sizes = vec![in bump; 0usize; count]?;
    for number in numbers {
        sizes[*number] = sizes[*number].saturating_add(1);
    }
    Ok(sizes)
}

/// Empty lists, each with room for as many numbers as its size.
fn empty_lists<'a>(
    bump: &'a Bump,
    sizes: &[usize],
) -> Result<Vec<Vec<usize, &'a Bump>, &'a Bump>, AllocError>
    ensures count { IfOk result (λ lists. length lists.items ≡ length sizes.now) }
    ensures empty { IfOk result (λ lists. All (λ list. list.items ≡ []) lists.items) }
{
    let mut lists = Vec::with_capacity(bump, sizes.len())?;
    for size in sizes {
        lists.push(Vec::with_capacity(bump, *size)?)?;
    }
    Ok(lists)
}
