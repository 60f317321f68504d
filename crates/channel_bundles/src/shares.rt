//! How few rules of all runs are shared out among the bundles of their classes.
ghost use Rattle.std.specs.Prelude.{◌≡◌, ℕ, ◌<◌, ◌≤◌, All, IfOk, length, map, slice_index_or};
ghost use Rattle.separation_model.specs.Bundle.{most_items};
ghost use Rattle.channel_bundles.specs.declared.channel.Listing.TheVariants.{Few};
ghost use Rattle.channel_bundles.specs.declared.channel.RunBundle.{RunBundle};
ghost use Rattle.channel_bundles.specs.Classes.{AreClasses, Connected, HasRule};
ghost use Rattle.channel_bundles.specs.Links.{IsMember, IsNudge};
ghost use Rattle.channel_bundles.specs.Listed.{AreListedOf};
ghost use Rattle.channel_bundles.specs.Placed.{AreRising};
ghost use Rattle.channel_bundles.specs.Shares.{AreSeats, IsGiven, IsWithin, share_of};

use crate::bare::bare_bundles;
use crate::channel::RunBundle;
use crate::few::few_rules;
use crate::forest::{Classes, Forest, Seat};
use crate::member::Member;
use bumpalo::Bump;
use separation_model::Rule;
use std::alloc::{AllocError, Global};

/// The classes of `count` items that the rules join, in the order of their first items.
fn joined_classes<'a>(
    bump: &'a Bump,
    count: usize,
    rules: &[Rule],
) -> Result<Classes<'a>, AllocError>
    requires { All (IsWithin count) rules.now }
    ensures classes { IfOk result (λ c. AreClasses (Connected (HasRule rules.now)) count (map (λ list. list.items) c.lists.items)) }
    ensures seats { IfOk result (λ c. AreSeats count (map (λ list. list.items) c.lists.items) c.seats.items) }
{
    let mut forest = Forest::new(bump, count)?;
    for rule in rules {
        forest.join(rule.left as usize, rule.right as usize);
    }
    forest.classes(bump)
}

/// How many of the rules each of the `count` classes gets: so much room they take in its bundle.
fn rule_counts<'a>(
    bump: &'a Bump,
    count: usize,
    rules: &[Rule],
    seats: &[Seat],
) -> Result<Vec<usize, &'a Bump>, AllocError>
    requires rules { All (IsWithin (length seats.now)) rules.now }
    requires seats { All (λ s. s.class < count) seats.now }
    ensures { IfOk result (λ counts. length counts.items ≡ count) }
{
    let mut counts = vec![in bump; 0usize; count]?;
    for rule in rules {
        let class = seats[rule.left as usize].class;
        counts[class] = counts[class].saturating_add(1);
    }
    Ok(counts)
}

/// Gives each rule to the bundle of its class, between the places that its items have there.
fn share_out(found: &mut [RunBundle<'_>], rules: &[Rule], seats: &[Seat]) -> Result<(), AllocError>
    requires rules { All (IsWithin (length seats.now)) rules.now }
    requires seats { All (λ s. (s.class < length found.old) × (s.place < length seats.now)) seats.now }
    requires few { length seats.now ≤ most_items }
    ensures count { IfOk result (λ _. length found.new ≡ length found.old) }
    ensures each { IfOk result (λ _. (k : ℕ) (d : RunBundle) → k < length found.old →
        IsGiven (share_of seats.now k rules.now) (slice_index_or found.old k d) (slice_index_or found.new k d)) }
{
    for rule in rules {
        let left = seats[rule.left as usize];
        let right = seats[rule.right as usize];
        found[left.class].bundle.rules.push(Rule {
            left: left.place as u32,
            right: right.place as u32,
            spaced: rule.spaced,
        })?;
    }
    Ok(())
}

/// The bundles of the runs, each with few of its rules.
pub(crate) fn few_bundles_of<'a>(
    alloc: Global,
    bump: &'a Bump,
    members: &[Member],
    nudge: i64,
) -> Result<Vec<RunBundle<'a>, &'a Bump>, AllocError>
    requires members { All IsMember members.now }
    requires few { length members.now ≤ most_items }
    requires rising { AreRising members.now }
    requires nudge { IsNudge nudge }
    ensures { IfOk result (λ found. AreListedOf Few nudge members.now found.items) }
{
    let rules = few_rules(alloc, bump, members, nudge)?;
    let classes = joined_classes(bump, members.len(), &rules)?;
    let rooms = rule_counts(bump, classes.lists.len(), &rules, &classes.seats)?;
    let mut found = bare_bundles(bump, members, &classes.lists, &rooms, nudge)?;
    share_out(&mut found, &rules, &classes.seats)?;
    Ok(found)
}
