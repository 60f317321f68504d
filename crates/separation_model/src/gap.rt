//! The widest gap of a bundle, by bisection.

ghost use Rattle.std.specs.Prelude.{pos, ◌+ℤ◌, ◌≤ℤ◌, ◌<ℤ◌, IfOk};
ghost use Rattle.separation_model.specs.Bundle.{IsBundle};
ghost use Rattle.separation_model.specs.Gap.{IsWidestGap};

use crate::bundle::Bundle;
use crate::latest::{fill_latest, rules_by_left};
use bumpalo::Bump;
use std::alloc::AllocError;

/// The gap to try between the two: the wanted one first, and then the one halfway, rounded.
fn between(met: i64, unmet: i64, wanted: i64) -> i64
    requires low { pos 0 ≤ℤ met }
    requires apart { (met +ℤ pos 1) <ℤ unmet }
    requires high { unmet ≤ℤ pos 1000001 }
    ensures low { met <ℤ result }
    ensures high { result <ℤ unmet }
{
    if unmet > wanted {
        unmet - 1
    } else {
        met + (unmet - met) / 2
    }
}

/// The largest gap, in whole thousandths from 0 to the wanted one, for which some positions meet
/// all rules and limits.
///
/// By bisection, after the wanted one: at most 21 passes over items and rules, and the rules are
/// sorted once. Without rules it is the wanted one. The arena takes a list of the rules and one of
/// the items' places, whatever the number of passes. The only error is out of memory.
pub fn widest_gap(bump: &Bump, bundle: &Bundle) -> Result<i64, AllocError>
    requires { IsBundle bundle.now }
    ensures { IfOk result (IsWidestGap bundle.now) }
{
    if bundle.rules.is_empty() {
        return Ok(bundle.wanted);
    }
    let by_left = rules_by_left(bump, &bundle.rules)?;
    let mut places = vec![in bump; 0; bundle.items.len()]?;
    let mut met = 0;
    let mut unmet = bundle.wanted + 1;
    while met + 1 < unmet {
        let middle = between(met, unmet, bundle.wanted);
        if fill_latest(&mut places, bundle, &by_left, middle) {
            met = middle;
        } else {
            unmet = middle;
        }
    }
    Ok(met)
}
