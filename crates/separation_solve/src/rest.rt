//! Items that no rule keeps apart: each rests where it is wanted.

ghost use Rattle.std.specs.Prelude.{◌≡◌, [], IfOk, map};
ghost use Rattle.separation_model.specs.Bundle.{IsBundle};
ghost use Rattle.separation_model.specs.Certified.{IsAccepted};
ghost use Rattle.separation_model.specs.Gap.{IsGap};

use bumpalo::Bump;
use separation_model::{Bundle, Item, Solution};
use std::alloc::AllocError;

/// The solution of a bundle without rules: each item is at its want, where no limit has to hold it
/// back, so that all multipliers are 0.
pub fn at_rest<'a>(bump: &'a Bump, bundle: &Bundle, gap: i64) -> Result<Solution<'a>, AllocError>
    requires bundle { IsBundle bundle.now }
    requires free { bundle.now.rules.items ≡ [] }
    requires gap { IsGap bundle.now gap }
    ensures gap { IfOk result (λ s. s.gap ≡ gap) }
    ensures accepted { IfOk result (IsAccepted bundle.now) }
{
    let count = bundle.items.len();
    Ok(Solution {
        gap,
        den: vec![in bump; 1; count]?,
        pos: exact_wants_of(bump, &bundle.items)?,
        mult: Vec::new(bump),
        low: vec![in bump; 0; count]?,
        high: vec![in bump; 0; count]?,
    })
}

/// The wants, in the width of a solution's numerators.
fn exact_wants_of<'a>(bump: &'a Bump, items: &[Item]) -> Result<Vec<i128, &'a Bump>, AllocError>
    ensures { IfOk result (λ wants. wants.items ≡ map (λ item. item.want) items.now) }
{
    items.iter().map(|item| i128::from(item.want)).collect(bump)
}
