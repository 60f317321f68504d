//! A law of the classes, as a function with an empty body: a caller cites it by a call.

ghost use Rattle.std.specs.Prelude.{◌↔◌, ℕ, List};
ghost use Rattle.separation_model.specs.declared.bundle.Rule.{Rule};
ghost use Rattle.separation_model.specs.Chains.{IsReduced};
ghost use Rattle.channel_bundles.specs.Classes.{Connected, HasRule};

/// Rules that stand for all of a bundle's by chains connect the same items.
pub fn reduced_connects()
    ensures { (all few : List Rule) (i j : ℕ) → IsReduced all few →
        Connected (HasRule all) i j ↔ Connected (HasRule few) i j }
{}
