//! Groups of runs, by which runs without a link are parted without a test of pairs.
ghost use Rattle.std.specs.Prelude.{◌≡◌, ◌≢◌, ◌⊎◌, ℕ, ◌<◌, ◌<ℤ◌, ◌≤ℤ◌, All, AllPairs, Contains, IfOk, length, slice_index};
ghost use Rattle.channel_bundles.specs.Classes.{Connected, IsForest, LeadsUp};
ghost use Rattle.channel_bundles.specs.Links.{IsLink, IsMember, IsNudge, member_at};
ghost use Rattle.channel_bundles.specs.Placed.{AreRising};
ghost use Rattle.channel_bundles.specs.Groups.{AreGroups, AreNext, AreTogether, IsSpan, Meet, begin_of, end_of, span_at};

use crate::forest::Forest;
use crate::member::Member;
use bumpalo::Bump;
use std::alloc::{AllocError, Global};

/// By what runs are parted: their limits, their ranges along the way, their edges, or fours of
/// places in a route, from 0 or from 2 on.
#[derive(Clone, Copy)]
pub(crate) enum By {
    Limits,
    Ranges,
    Edges,
    Fours,
    LaterFours,
}

/// Two ways to part the runs of an edge, so that two with one run between them are together in one
/// of them.
#[derive(Drop)]
pub(crate) struct Fours<'a> {
    pub(crate) early: Vec<usize, &'a Bump>,
    pub(crate) late: Vec<usize, &'a Bump>,
}

/// What the run at the place takes up, from `lo` to before `hi`, among the runs of its group.
#[derive(Clone, Copy)]
struct Span {
    group: usize,
    lo: i64,
    hi: i64,
    place: usize,
}

/// The bytes that parting needs for a run: two spans and a tree.
const ROOM_FOR_RUN: usize = 72;

/// Where what the run takes up begins.
fn begin_of(member: &Member, by: By) -> i64
    ensures { result ≡ begin_of by member.now }
{
    match by {
        By::Limits => member.low,
        By::Ranges => member.run.lo,
        By::Edges => i64::from(member.run.edge),
        By::Fours => i64::from(member.run.place / 2 / 2),
        By::LaterFours => i64::from((member.run.place / 2 + 1) / 2),
    }
}

/// Where what the run takes up ends.
fn end_of(member: &Member, by: By, nudge: i64) -> i64
    requires member { IsMember member.now }
    requires nudge { IsNudge nudge }
    ensures { result ≡ end_of by nudge member.now }
{
    match by {
        By::Limits => member.high + nudge + 1,
        By::Ranges => member.run.hi,
        By::Edges => i64::from(member.run.edge) + 1,
        By::Fours => i64::from(member.run.place / 2 / 2) + 1,
        By::LaterFours => i64::from((member.run.place / 2 + 1) / 2) + 1,
    }
}

/// What the runs take up, by where it begins.
fn spans_of<'a>(
    bump: &'a Bump,
    members: &[Member],
    groups: &[usize],
    by: By,
    nudge: i64,
) -> Result<Vec<Span, &'a Bump>, AllocError>
    requires members { All IsMember members.now }
    requires groups { AreGroups (length members.now) groups.now }
    requires nudge { IsNudge nudge }
    ensures each { IfOk result (λ spans. All (IsSpan (length members.now)) spans.items) }
    ensures all { IfOk result (λ spans. (k : ℕ) → k < length members.now →
        Contains spans.items (span_at by nudge members.now groups.now k)) }
    ensures order { IfOk result (λ spans. AllPairs (λ a b. a.lo ≤ℤ b.lo) spans.items) }
{
    let mut spans = Vec::with_capacity(bump, members.len())?;
    for place in 0..members.len() {
        spans.push(Span {
            group: groups[place],
            lo: begin_of(&members[place], by),
            hi: end_of(&members[place], by, nudge),
            place,
        })?;
    }
    spans.sort_unstable_by_key(|span| span.lo);
    Ok(spans)
}

/// Joins the trees of two runs whose spans meet, the second of which does not begin earlier.
fn join_where_met(forest: &mut Forest<'_>, far: &Span, span: &Span)
    requires forest { IsForest forest.old.above.items }
    requires far { far.now.place < length forest.old.above.items }
    requires span { span.now.place < length forest.old.above.items }
    ensures forest { IsForest forest.new.above.items }
    ensures count { length forest.new.above.items ≡ length forest.old.above.items }
    ensures kept { (i j : ℕ) → LeadsUp forest.old.above.items i j → Connected (LeadsUp forest.new.above.items) i j }
    ensures joined { span.now.lo <ℤ far.now.hi →
        Connected (LeadsUp forest.new.above.items) far.now.place span.now.place }
{
    if span.lo < far.hi {
        forest.join(far.place, span.place);
    }
}

/// The one of the two spans that ends later.
fn farther(far: Span, span: Span) -> Span
    ensures one { (result ≡ far) ⊎ (result ≡ span) }
    ensures far { far.hi ≤ℤ result.hi }
    ensures span { span.hi ≤ℤ result.hi }
{
    if far.hi < span.hi { span } else { far }
}

/// Joins the trees of runs of one group whose spans meet. `farthest` has for each group the span
/// that ends last of those so far.
fn join_spans(forest: &mut Forest<'_>, farthest: &mut [Span], spans: &[Span])
    requires forest { IsForest forest.old.above.items }
    requires count { length forest.old.above.items ≡ length farthest.old }
    requires each { All (IsSpan (length farthest.old)) spans.now }
    requires begin { All (IsSpan (length farthest.old)) farthest.old }
    requires order { AllPairs (λ a b. a.lo ≤ℤ b.lo) spans.now }
    ensures forest { IsForest forest.new.above.items }
    ensures count { length forest.new.above.items ≡ length farthest.old }
    ensures joined { (a b : Span) → Contains spans.now a → Contains spans.now b → Meet a b →
        Connected (LeadsUp forest.new.above.items) a.place b.place }
{
    for span in spans {
        let far = farthest[span.group];
        join_where_met(forest, &far, span);
        farthest[span.group] = farther(far, *span);
    }
}

/// The groups, parted where what their runs take up does not meet.
fn parted<'a>(
    alloc: Global,
    bump: &'a Bump,
    members: &[Member],
    groups: &[usize],
    by: By,
    nudge: i64,
) -> Result<Vec<usize, &'a Bump>, AllocError>
    requires members { All IsMember members.now }
    requires groups { AreGroups (length members.now) groups.now }
    requires nudge { IsNudge nudge }
    ensures groups { IfOk result (λ new. AreGroups (length members.now) new.items) }
    ensures together { IfOk result (λ new. (i j : ℕ) → i < length members.now → j < length members.now →
        Meet (span_at by nudge members.now groups.now i) (span_at by nudge members.now groups.now j) →
        AreTogether new.items i j) }
{
    let count = members.len();
    let nowhere = Span {
        group: 0,
        lo: 0,
        hi: i64::MIN,
        place: 0,
    };
    let own = Bump::try_with_capacity(alloc, count.saturating_mul(ROOM_FOR_RUN))?;
    let mut farthest = vec![in &own; nowhere; count]?;
    let spans = spans_of(&own, members, groups, by, nudge)?;
    let mut forest = Forest::new(&own, count)?;
    join_spans(&mut forest, &mut farthest, &spans);
    forest.numbers(bump)
}

/// Groups that no spaced link leaves.
pub(crate) fn channels<'a>(
    alloc: Global,
    bump: &'a Bump,
    members: &[Member],
    nudge: i64,
) -> Result<Vec<usize, &'a Bump>, AllocError>
    requires members { All IsMember members.now }
    requires rising { AreRising members.now }
    requires nudge { IsNudge nudge }
    ensures groups { IfOk result (λ groups. AreGroups (length members.now) groups.items) }
    ensures together { IfOk result (λ groups. (i j : ℕ) → IsLink nudge members.now i j →
        (member_at members.now i).run.edge ≢ (member_at members.now j).run.edge → AreTogether groups.items i j) }
{
    let all = vec![in bump; 0; members.len()]?;
    let limits = parted(alloc, bump, members, &all, By::Limits, nudge)?;
    parted(alloc, bump, members, &limits, By::Ranges, nudge)
}

/// The groups of the runs of one edge.
pub(crate) fn edges<'a>(
    alloc: Global,
    bump: &'a Bump,
    members: &[Member],
    nudge: i64,
) -> Result<Vec<usize, &'a Bump>, AllocError>
    requires members { All IsMember members.now }
    requires nudge { IsNudge nudge }
    ensures groups { IfOk result (λ groups. AreGroups (length members.now) groups.items) }
    ensures together { IfOk result (λ groups. (i j : ℕ) → IsLink nudge members.now i j →
        (member_at members.now i).run.edge ≡ (member_at members.now j).run.edge → AreTogether groups.items i j) }
{
    let all = vec![in bump; 0; members.len()]?;
    parted(alloc, bump, members, &all, By::Edges, nudge)
}

/// The runs of one edge, parted by fours in two ways.
pub(crate) fn in_fours<'a>(
    alloc: Global,
    bump: &'a Bump,
    members: &[Member],
    nudge: i64,
) -> Result<Fours<'a>, AllocError>
    requires members { All IsMember members.now }
    requires nudge { IsNudge nudge }
    ensures early { IfOk result (λ fours. AreGroups (length members.now) fours.early.items) }
    ensures late { IfOk result (λ fours. AreGroups (length members.now) fours.late.items) }
    ensures together { IfOk result (λ fours. (i j : ℕ) → IsLink nudge members.now i j →
        (member_at members.now i).run.edge ≡ (member_at members.now j).run.edge →
        AreTogether fours.early.items i j ⊎ AreTogether fours.late.items i j) }
{
    let edges = edges(alloc, bump, members, nudge)?;
    let early = parted(alloc, bump, members, &edges, By::Fours, nudge)?;
    let late = parted(alloc, bump, members, &edges, By::LaterFours, nudge)?;
    Ok(Fours { early, late })
}

/// For each run the next one of its group; where there is none, the number of all runs.
pub(crate) fn next_of_group<'a>(
    bump: &'a Bump,
    groups: &[usize],
) -> Result<Vec<usize, &'a Bump>, AllocError>
    requires { AreGroups (length groups.now) groups.now }
    ensures { IfOk result (λ next. AreNext groups.now next.items) }
{
    let count = groups.len();
    let mut first = vec![in bump; count; count]?;
    let mut next = vec![in bump; count; count]?;
    let mut at = count;
    while at > 0 {
        at -= 1;
        next[at] = first[groups[at]];
        first[groups[at]] = at;
    }
    Ok(next)
}
