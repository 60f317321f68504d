//! Few of the links between runs as rules, whose chains stand for all.
ghost use Rattle.std.specs.Prelude.{◌≡◌, ℕ, ◌+◌, ◌<◌, ◌≤◌, Some, All, IfOk, IsTrue, length, slice_index};
ghost use Rattle.separation_model.specs.Bundle.{most_items, rule_at};
ghost use Rattle.channel_bundles.specs.Placed.{AreRising};
ghost use Rattle.channel_bundles.specs.Links.{AreClear, IsMember, IsNudge};
ghost use Rattle.channel_bundles.specs.Kept.{AreKept, AreKeptFrom, IsClosing, IsHidden, IsPast, IsTried, LeadOn, LeadsTowards, nearest};

use crate::groups::{channels, in_fours, next_of_group};
use crate::links::first_clear;
use crate::member::Member;
use bumpalo::Bump;
use separation_model::Rule;
use std::alloc::{AllocError, Global};

/// For each run the next one of each of its groups: its channel, and two groups of its edge.
#[derive(Drop)]
struct Nexts<'a> {
    channel: Vec<usize, &'a Bump>,
    early: Vec<usize, &'a Bump>,
    late: Vec<usize, &'a Bump>,
}

/// The next runs of the groups of a run, of which the nearest is tried next.
#[derive(Clone, Copy)]
struct Ahead {
    channel: usize,
    early: usize,
    late: usize,
}

impl Ahead {
    /// The nearest of the runs.
    fn nearest(self) -> usize
        ensures { result ≡ nearest self.channel self.early self.late }
    {
        self.channel.min(self.early).min(self.late)
    }
}

/// The next run of the group after `later`, which has been tried.
fn past(next: &[usize], ahead: usize, later: usize) -> usize
    requires { later < length next.now }
    ensures { IsPast next.now ahead later result }
{
    if ahead == later { next[later] } else { ahead }
}

impl Nexts<'_> {
    /// The next runs of the groups after `later`, which has been tried.
    fn past(&self, ahead: Ahead, later: usize) -> Ahead
        requires channel { later < length self.now.channel.items }
        requires early { later < length self.now.early.items }
        requires late { later < length self.now.late.items }
        ensures channel { IsPast self.now.channel.items ahead.channel later result.channel }
        ensures early { IsPast self.now.early.items ahead.early later result.early }
        ensures late { IsPast self.now.late.items ahead.late later result.late }
    {
        Ahead {
            channel: past(&self.channel, ahead.channel, later),
            early: past(&self.early, ahead.early, later),
            late: past(&self.late, ahead.late, later),
        }
    }

    /// The next runs of the groups of the run at `at`.
    fn after(&self, at: usize) -> Ahead
        requires channel { at < length self.now.channel.items }
        requires early { at < length self.now.early.items }
        requires late { at < length self.now.late.items }
        ensures channel { result.channel ≡ slice_index self.now.channel.items at }
        ensures early { result.early ≡ slice_index self.now.early.items at }
        ensures late { result.late ≡ slice_index self.now.late.items at }
    {
        Ahead {
            channel: self.channel[at],
            early: self.early[at],
            late: self.late[at],
        }
    }
}

/// The next runs of each group.
fn find_nexts<'a>(
    alloc: Global,
    bump: &'a Bump,
    members: &[Member],
    nudge: i64,
) -> Result<Nexts<'a>, AllocError>
    requires members { All IsMember members.now }
    requires rising { AreRising members.now }
    requires nudge { IsNudge nudge }
    ensures { IfOk result (λ n. LeadOn nudge members.now n.channel.items n.early.items n.late.items) }
{
    let channels = channels(alloc, bump, members, nudge)?;
    let fours = in_fours(alloc, bump, members, nudge)?;
    Ok(Nexts {
        channel: next_of_group(bump, &channels)?,
        early: next_of_group(bump, &fours.early)?,
        late: next_of_group(bump, &fours.late)?,
    })
}

/// Whether a spaced rule from `first` on leads to a run from which a spaced link leads to `later`.
fn has_middle(rules: &[Rule], first: usize, members: &[Member], nudge: i64, later: usize) -> bool
    requires members { All IsMember members.now }
    requires nudge { IsNudge nudge }
    requires later { later < length members.now }
    requires within { All (λ r. r.right < length members.now) rules.now }
    ensures { IsTrue result → (k : ℕ) × (first ≤ k) × (k < length rules.now) × LeadsTowards nudge members.now later (rule_at rules.now k) }
{
    for k in first..rules.len() {
        let rule = rules[k];
        if rule.spaced && members[rule.right as usize].is_apart(&members[later], nudge) {
            return true;
        }
    }
    false
}

/// Appends the rule from the run at `at` to the one at `later`, if there is one without a middle
/// among the rules from `first` on.
fn push_if_needed(
    rules: &mut Vec<Rule, &Bump>,
    first: usize,
    members: &[Member],
    nudge: i64,
    at: usize,
    later: usize,
) -> Result<(), AllocError>
    requires members { All IsMember members.now }
    requires few { length members.now ≤ most_items }
    requires nudge { IsNudge nudge }
    requires at { at < later }
    requires later { later < length members.now }
    requires within { All (λ r. r.right < length members.now) rules.old.items }
    ensures { IfOk result (λ _. IsTried nudge members.now first at later rules.old.items rules.new.items) }
{
    let Some(spaced) = members[at].link(&members[later], nudge) else {
        return Ok(());
    };
    if has_middle(rules, first, members, nudge, later) {
        return Ok(());
    }
    rules.push(Rule {
        left: at as u32,
        right: later as u32,
        spaced,
    })?;
    Ok(())
}

/// Whether the later run is kept apart from the run at `at` and hides it.
fn is_hidden(members: &[Member], nudge: i64, at: usize, later: usize) -> bool
    requires members { All IsMember members.now }
    requires nudge { IsNudge nudge }
    requires at { at < length members.now }
    requires later { later < length members.now }
    ensures { IsTrue result → IsHidden nudge members.now at later }
{
    members[later].hides(&members[at]) && members[at].is_apart(&members[later], nudge)
}

/// Whether the later run and one of another edge, `hider`, hide the run at `at`. The edge of the
/// first run that hides it is kept.
fn is_closed(
    hider: &mut Option<u32>,
    members: &[Member],
    nudge: i64,
    at: usize,
    later: usize,
) -> bool
    requires members { All IsMember members.now }
    requires nudge { IsNudge nudge }
    requires at { at < length members.now }
    requires later { later < length members.now }
    ensures { IsClosing nudge members.now at later hider.old result hider.new }
{
    if !is_hidden(members, nudge, at, later) {
        return false;
    }
    let edge = members[later].run.edge;
    if let Some(other) = *hider {
        return other != edge;
    }
    *hider = Some(edge);
    false
}

/// Appends few of the rules from the run at `at`, in their order.
fn push_few_of(
    rules: &mut Vec<Rule, &Bump>,
    members: &[Member],
    clear: &[i64],
    nexts: &Nexts<'_>,
    nudge: i64,
    at: usize,
) -> Result<(), AllocError>
    requires members { All IsMember members.now }
    requires few { length members.now ≤ most_items }
    requires clear { AreClear members.now clear.now }
    requires nexts { LeadOn nudge members.now nexts.now.channel.items nexts.now.early.items nexts.now.late.items }
    requires nudge { IsNudge nudge }
    requires at { at < length members.now }
    requires within { All (λ r. r.right < length members.now) rules.old.items }
    ensures { IfOk result (λ _. AreKeptFrom nudge members.now rules.old.items at rules.new.items) }
{
    let first = rules.len();
    let mut hider = None;
    let mut ahead = nexts.after(at);
    while ahead.nearest() < members.len() {
        let later = ahead.nearest();
        if members[at].is_clear_of(clear[later], nudge) {
            return Ok(());
        }
        push_if_needed(rules, first, members, nudge, at, later)?;
        ahead = nexts.past(ahead, later);
        if is_closed(&mut hider, members, nudge, at, later) {
            ahead.channel = members.len();
        }
    }
    Ok(())
}

/// Few of the links between the runs as rules, by their left items and then by their right ones.
pub(crate) fn few_rules<'a>(
    alloc: Global,
    bump: &'a Bump,
    members: &[Member],
    nudge: i64,
) -> Result<Vec<Rule, &'a Bump>, AllocError>
    requires members { All IsMember members.now }
    requires few { length members.now ≤ most_items }
    requires rising { AreRising members.now }
    requires nudge { IsNudge nudge }
    ensures { IfOk result (λ rules. AreKept nudge members.now rules.items) }
{
    let clear = first_clear(bump, members)?;
    let nexts = find_nexts(alloc, bump, members, nudge)?;
    let mut rules = Vec::new(bump);
    for at in 0..members.len() {
        push_few_of(&mut rules, members, &clear, &nexts, nudge, at)?;
    }
    Ok(rules)
}
