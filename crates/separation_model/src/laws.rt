//! The laws of the definitions, as functions with an empty body: a caller cites one by a call.

ghost use Rattle.std.specs.Prelude.{◌≡◌, ◌↔◌, ℕ, ◌<◌, ℤ, ◌*ℤ◌, ◌≤ℤ◌, pos, List, All, EachIndex, length, replicate, slice_index};
ghost use Rattle.separation_model.specs.declared.bundle.TheConstants.{MOST_ITEMS};
ghost use Rattle.separation_model.specs.declared.bundle.Bundle.{Bundle};
ghost use Rattle.separation_model.specs.declared.bundle.Item.{Item};
ghost use Rattle.separation_model.specs.declared.bundle.Rule.{Rule};
ghost use Rattle.separation_model.specs.declared.bundle.Solution.{Solution};
ghost use Rattle.separation_model.specs.Bundle.{IsBundle, IsRule, MeetsBundle, SolutionIsOnSheet, int_at, most_items};
ghost use Rattle.separation_model.specs.Gap.{IsGap, IsWidestGap};
ghost use Rattle.separation_model.specs.Least.{IsLeast};
ghost use Rattle.separation_model.specs.Certified.{IsCertified};
ghost use Rattle.separation_model.specs.Chains.{HaveMiddles, IsReduced, IsReducedBundle};
ghost use Rattle.separation_model.specs.Padded.{ArePadded};
ghost use Rattle.separation_model.specs.Rounded.{IsRoundedDown, all_rounded_down, rounded_down};
ghost use Rattle.separation_model.specs.Sum.{sum_at};

/// Each bundle has exactly one widest gap.
pub fn one_widest_gap()
    ensures some { (b : Bundle) → IsBundle b → (gap : ℤ) × IsWidestGap b gap }
    ensures one { (b : Bundle) (gap other : ℤ) →
        IsWidestGap b gap → IsWidestGap b other → gap ≡ other }
{}

/// Multipliers show positions to be least: by weak duality, no other positions have a lower sum.
pub fn certified_is_least()
    ensures { (b : Bundle) (s : Solution) → IsBundle b → IsCertified b s →
        IsLeast b s.gap s.den.items s.pos.items }
{}

/// For a bundle and a gap there is at most one list of least fractions.
pub fn one_least()
    ensures { (b : Bundle) (gap : ℤ) (den other_den : List ℕ) (nums other : List ℤ) →
        IsBundle b → IsLeast b gap den nums → IsLeast b gap other_den other →
        EachIndex nums (λ i. (int_at nums i *ℤ pos (slice_index other_den i))
        ≡ (int_at other i *ℤ pos (slice_index den i))) }
{}

/// For each gap from 0 to the widest one there are least positions.
pub fn least_positions_exist()
    ensures { (b : Bundle) (gap : ℤ) → IsBundle b → IsGap b gap →
        (den : List ℕ) × (nums : List ℤ) × IsLeast b gap den nums }
{}

/// Positions that meet a bundle are on the sheet.
pub fn met_positions_are_on_sheet()
    ensures { (b : Bundle) (gap : ℤ) (s : Solution) → IsBundle b →
        MeetsBundle b gap s.den.items s.pos.items → SolutionIsOnSheet s }
{}

/// The rounded-down coordinate of a position is the only whole one that is not above it while the
/// next one is.
pub fn rounded_down_is_below()
    ensures { (num whole : ℤ) (den : ℕ) → 0 < den →
        IsRoundedDown num den whole ↔ (whole ≡ rounded_down num den) }
{}

/// Rounding down keeps whole limits and whole gaps: where positions meet a bundle, so do the
/// coordinates next below.
pub fn rounded_down_meets()
    ensures { (b : Bundle) (gap : ℤ) (den : List ℕ) (nums : List ℤ) → IsBundle b →
        MeetsBundle b gap den nums →
        MeetsBundle b gap (replicate (length b.items.items) 1) (all_rounded_down den nums) }
{}

/// Equal fractions have the same rounding, and so have all least positions of a bundle and a gap.
pub fn one_rounded()
    ensures fractions { (num other : ℤ) (den other_den : ℕ) → 0 < den → 0 < other_den →
        (num *ℤ pos other_den) ≡ (other *ℤ pos den) →
        rounded_down num den ≡ rounded_down other other_den }
    ensures least { (b : Bundle) (gap : ℤ) (den other_den : List ℕ) (nums other : List ℤ) →
        IsBundle b → IsLeast b gap den nums → IsLeast b gap other_den other →
        all_rounded_down den nums ≡ all_rounded_down other_den other }
{}

/// A bundle and its reduced one are met by the same fractions, for each gap from 0 on.
pub fn reduced_meets()
    ensures { (b few : Bundle) (gap : ℤ) (den : List ℕ) (nums : List ℤ) → IsBundle b →
        IsReducedBundle b few → pos 0 ≤ℤ gap → MeetsBundle few gap den nums ↔ MeetsBundle b gap den nums }
{}

/// The widest gap and the least positions of a reduced bundle are those of the whole one.
pub fn reduced_places()
    ensures widest { (b few : Bundle) (gap : ℤ) → IsBundle b → IsReducedBundle b few →
        IsWidestGap few gap → IsWidestGap b gap }
    ensures least { (b few : Bundle) (gap : ℤ) (den : List ℕ) (nums : List ℤ) → IsBundle b →
        IsReducedBundle b few → pos 0 ≤ℤ gap → IsLeast few gap den nums → IsLeast b gap den nums }
{}

/// Where each rule that was left out has a middle, chains of the kept rules stand for all.
pub fn middles_reduce()
    ensures { (items : List Item) (all few : List Rule) → All (IsRule items) all →
        HaveMiddles all few → IsReduced all few }
{}

/// Multipliers with 0 at the rules that were left out push each item as those of the few do.
pub fn padded_pushes()
    ensures { (end : Rule → ℕ) (i : ℕ) (all few : List Rule) (mults own : List ℤ) →
        ArePadded all mults few own → sum_at end i all mults ≡ sum_at end i few own }
{}

/// A certified solution of a reduced bundle is certified for the whole one, with 0 at the rules
/// that were left out.
pub fn padded_is_certified()
    ensures { (b few : Bundle) (own s : Solution) → IsBundle b → IsReducedBundle b few →
        pos 0 ≤ℤ own.gap → IsCertified few own →
        ArePadded b.rules.items s.mult.items few.rules.items own.mult.items →
        IsCertified b (record own { mult = s.mult }) }
{}

/// `MOST_ITEMS` is the number by which bundles are bounded.
pub fn most_items_is_the_bound()
    ensures { MOST_ITEMS ≡ most_items }
{}
