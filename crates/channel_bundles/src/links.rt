//! The links between runs: the classes that they form, and the rules that they stand for.
ghost use Rattle.std.specs.Prelude.{◌≡◌, ℕ, ◌+◌, ◌<◌, ◌≤◌, ◌++◌, List, All, EachIndex, IfOk, drop, length, map, slice_index};
ghost use Rattle.separation_model.specs.Bundle.{most_items};
ghost use Rattle.channel_bundles.specs.Classes.{AreClasses, Connected, FollowsLinks, IsForest, LeadsUp};
ghost use Rattle.channel_bundles.specs.Groups.{AreNext, AreTogether};
ghost use Rattle.channel_bundles.specs.Placed.{AreRising};
ghost use Rattle.channel_bundles.specs.Links.{AreClear, IsLink, IsMember, IsNudge, member_at, rules_after, rules_from};

use crate::forest::Forest;
use crate::groups::{channels, edges, next_of_group};
use crate::member::Member;
use bumpalo::Bump;
use separation_model::Rule;
use std::alloc::{AllocError, Global};

/// The lower limits of the runs.
fn lower_limits<'a>(bump: &'a Bump, members: &[Member]) -> Result<Vec<i64, &'a Bump>, AllocError>
    ensures { IfOk result (λ lows. lows.items ≡ map (λ m. m.low) members.now) }
{
    members.iter().map(|m| m.low).collect(bump)
}

/// For each run, the least lower limit of the runs from it on, in their order.
pub(crate) fn first_clear<'a>(
    bump: &'a Bump,
    members: &[Member],
) -> Result<Vec<i64, &'a Bump>, AllocError>
    ensures { IfOk result (λ clear. AreClear members.now clear.items) }
{
    let mut clear = lower_limits(bump, members)?;
    let mut next = clear.len();
    while next > 1 {
        next -= 1;
        clear[next - 1] = clear[next - 1].min(clear[next]);
    }
    Ok(clear)
}

/// Joins the tree of the run at `at` with the trees of all later runs of its group to which it is
/// linked. `next` has for each run the next one of its group.
fn join_links_of(
    forest: &mut Forest<'_>,
    members: &[Member],
    clear: &[i64],
    next: &[usize],
    nudge: i64,
    at: usize,
)
    requires forest { IsForest forest.old.above.items }
    requires count { length forest.old.above.items ≡ length members.now }
    requires members { All IsMember members.now }
    requires clear { AreClear members.now clear.now }
    requires nudge { IsNudge nudge }
    requires at { at < length members.now }
    requires next { length next.now ≡ length members.now }
    requires after { EachIndex next.now (λ i. i < slice_index next.now i) }
    ensures forest { IsForest forest.new.above.items }
    ensures count { length forest.new.above.items ≡ length members.now }
    ensures kept { (i j : ℕ) → LeadsUp forest.old.above.items i j → Connected (LeadsUp forest.new.above.items) i j }
    ensures joined { (groups : List ℕ) (j : ℕ) → AreNext groups next.now → AreTogether groups at j →
        IsLink nudge members.now at j → Connected (LeadsUp forest.new.above.items) at j }
    ensures only { FollowsLinks (IsLink nudge members.now) forest.old.above.items →
        FollowsLinks (IsLink nudge members.now) forest.new.above.items }
{
    let mut later = next[at];
    while later < members.len() {
        if members[at].is_clear_of(clear[later], nudge) {
            return;
        }
        if members[at].link(&members[later], nudge).is_some() {
            forest.join(at, later);
        }
        later = next[later];
    }
}

/// The classes of the runs that links join, by the places of the runs, in the order of their first
/// runs.
pub(crate) fn linked_classes<'a>(
    alloc: Global,
    bump: &'a Bump,
    members: &[Member],
    nudge: i64,
) -> Result<Vec<Vec<usize, &'a Bump>, &'a Bump>, AllocError>
    requires members { All IsMember members.now }
    requires rising { AreRising members.now }
    requires nudge { IsNudge nudge }
    ensures { IfOk result (λ lists. AreClasses (Connected (IsLink nudge members.now)) (length members.now)
        (map (λ list. list.items) lists.items)) }
{
    let clear = first_clear(bump, members)?;
    let channels = channels(alloc, bump, members, nudge)?;
    let near = next_of_group(bump, &channels)?;
    let edges = edges(alloc, bump, members, nudge)?;
    let own = next_of_group(bump, &edges)?;
    let mut forest = Forest::new(bump, members.len())?;
    for at in 0..members.len() {
        join_links_of(&mut forest, members, &clear, &near, nudge, at);
        join_links_of(&mut forest, members, &clear, &own, nudge, at);
    }
    let classes = forest.classes(bump)?;
    Ok(classes.lists)
}

/// Appends the rules from the run at `at` to all later ones to which it is linked, in their order.
fn push_rules_of(
    rules: &mut Vec<Rule, &Bump>,
    members: &[Member],
    clear: &[i64],
    nudge: i64,
    at: usize,
) -> Result<(), AllocError>
    requires members { All IsMember members.now }
    requires few { length members.now ≤ most_items }
    requires clear { AreClear members.now clear.now }
    requires nudge { IsNudge nudge }
    requires at { at < length members.now }
    ensures { IfOk result (λ _. rules.new.items ≡
        rules.old.items ++ rules_from nudge at (member_at members.now at) (at + 1) (drop (at + 1) members.now)) }
{
    for later in at + 1..members.len() {
        if members[at].is_clear_of(clear[later], nudge) {
            return Ok(());
        }
        if let Some(spaced) = members[at].link(&members[later], nudge) {
            rules.push(Rule {
                left: at as u32,
                right: later as u32,
                spaced,
            })?;
        }
    }
    Ok(())
}

/// All links between the runs as rules, by their earlier runs and then by their later ones.
pub(crate) fn rules_of<'a>(
    bump: &'a Bump,
    members: &[Member],
    nudge: i64,
) -> Result<Vec<Rule, &'a Bump>, AllocError>
    requires members { All IsMember members.now }
    requires few { length members.now ≤ most_items }
    requires nudge { IsNudge nudge }
    ensures { IfOk result (λ rules. rules.items ≡ rules_after nudge 0 members.now) }
{
    let clear = first_clear(bump, members)?;
    let mut rules = Vec::new(bump);
    for at in 0..members.len() {
        push_rules_of(&mut rules, members, &clear, nudge, at)?;
    }
    Ok(rules)
}
