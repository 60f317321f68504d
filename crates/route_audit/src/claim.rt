//! What labels have to be for a claim.
ghost use Rattle.std.specs.Prelude.{◌≡◌, ◌≤◌, ◌↔◌, IsTrue};
ghost use Rattle.proof_model.specs.Rules.{IsLabelFor, MayEnd, Suffices};
ghost use Rattle.walk_model.specs.Cost.{turn};

use plane_geom::Dir;
use proof_model::Claim;

/// Labels and costs are below this.
pub(crate) const MOST_LABEL: u64 = 1_000_000_000_000_000_000;

/// The number of bends between two headings.
pub(crate) fn bends(from: Dir, to: Dir) -> u64
    ensures bends { result ≡ turn from to }
    ensures few { result ≤ 2 }
{
    if from == to {
        0
    } else if from == to.opposite() {
        2
    } else {
        1
    }
}

/// Whether a label may stand under the claim: below the claimed cost, or 0 for a cut.
pub(crate) fn is_label_for(claim: &Claim, label: u64) -> bool
    ensures { IsTrue result ↔ IsLabelFor claim.now label }
{
    match claim {
        Claim::Cost { cost, .. } => label < *cost,
        Claim::Cut => label == 0,
    }
}

/// Whether the value of a place with this label, or with none, is at most the cost; for a cut,
/// whether it has one.
pub(crate) fn suffices(claim: &Claim, label: Option<u64>, cost: u64) -> bool
    ensures { IsTrue result ↔ Suffices claim.now label cost }
{
    match claim {
        Claim::Cost { cost: most, .. } => label.unwrap_or(*most) <= cost,
        Claim::Cut => label.is_some(),
    }
}

/// Whether a walk of this cost may end: it costs no less than is claimed. For a cut, none may.
pub(crate) fn may_end(claim: &Claim, cost: u64) -> bool
    ensures { IsTrue result ↔ MayEnd claim.now cost }
{
    match claim {
        Claim::Cost { cost: least, .. } => *least <= cost,
        Claim::Cut => false,
    }
}
