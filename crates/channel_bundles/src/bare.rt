//! The bundles of classes of runs, still without rules.
ghost use Rattle.std.specs.Prelude.{◌≡◌, ℕ, ◌<◌, [], All, IfOk, length, map, slice_index_or};
ghost use Rattle.channel_bundles.specs.declared.channel.RunBundle.{RunBundle};
ghost use Rattle.channel_bundles.specs.Bundles.{members_at};
ghost use Rattle.channel_bundles.specs.Links.{item_of};
ghost use Rattle.channel_bundles.specs.Shares.{IsBundleWith};

use crate::channel::RunBundle;
use crate::member::Member;
use bumpalo::Bump;
use segment_order::Run;
use separation_model::{Bundle, Item, Rule};
use std::alloc::AllocError;

/// The runs at the given places, as items.
fn items_of<'a>(
    bump: &'a Bump,
    members: &[Member],
    places: &[usize],
) -> Result<Vec<Item, &'a Bump>, AllocError>
    requires { All (λ i. i < length members.now) places.now }
    ensures { IfOk result (λ items. items.items ≡ map item_of (members_at members.now places.now)) }
{
    let mut items = Vec::with_capacity(bump, places.len())?;
    for place in places {
        items.push(members[*place].item())?;
    }
    Ok(items)
}

/// The runs at the given places, without their limits.
fn own_runs<'a>(
    bump: &'a Bump,
    members: &[Member],
    places: &[usize],
) -> Result<Vec<Run, &'a Bump>, AllocError>
    requires { All (λ i. i < length members.now) places.now }
    ensures { IfOk result (λ runs. runs.items ≡ map (λ m. m.run) (members_at members.now places.now)) }
{
    let mut runs = Vec::with_capacity(bump, places.len())?;
    for place in places {
        runs.push(members[*place].run)?;
    }
    Ok(runs)
}

/// The bundle of the runs at the given places, with the rules.
pub(crate) fn bundle_with<'a>(
    bump: &'a Bump,
    members: &[Member],
    places: &[usize],
    rules: Vec<Rule, &'a Bump>,
    nudge: i64,
) -> Result<RunBundle<'a>, AllocError>
    requires { All (λ i. i < length members.now) places.now }
    ensures { IfOk result (λ b. IsBundleWith nudge (members_at members.now places.now) rules.entry.items b) }
{
    let bundle = Bundle {
        items: items_of(bump, members, places)?,
        rules,
        wanted: nudge,
    };
    Ok(RunBundle {
        bundle,
        runs: own_runs(bump, members, places)?,
    })
}

/// The bundles of the classes, still without rules. `rooms` says how many rules of each class get in
/// without more memory.
pub(crate) fn bare_bundles<'a>(
    bump: &'a Bump,
    members: &[Member],
    classes: &[Vec<usize, &Bump>],
    rooms: &[usize],
    nudge: i64,
) -> Result<Vec<RunBundle<'a>, &'a Bump>, AllocError>
    requires rooms { length rooms.now ≡ length classes.now }
    requires within { All (λ list. All (λ i. i < length members.now) list.items) classes.now }
    ensures count { IfOk result (λ found. length found.items ≡ length classes.now) }
    ensures each { IfOk result (λ found. (k : ℕ) (d : RunBundle) → k < length classes.now →
        IsBundleWith nudge (members_at members.now (slice_index_or (map (λ list. list.items) classes.now) k [])) [] (slice_index_or found.items k d)) }
{
    let mut found = Vec::with_capacity(bump, classes.len())?;
    for class in classes {
        let rules = Vec::with_capacity(bump, rooms[found.len()])?;
        found.push(bundle_with(bump, members, class, rules, nudge)?)?;
    }
    Ok(found)
}
