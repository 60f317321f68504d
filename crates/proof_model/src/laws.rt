//! The laws of proofs, each the contract of a function with an empty body.
ghost use Rattle.std.specs.Prelude.{List, ℕ, ◌≡◌};
ghost use Rattle.std.specs.List.{AllZip};
ghost use Rattle.line_arena.specs.Arena.{Arena, IsArena};
ghost use Rattle.line_arena.specs.Stands.{StandsFor};
ghost use Rattle.plane_geom.specs.Floor.{IsFloor};
ghost use Rattle.plane_geom.specs.declared.floor.Floor.{Floor};
ghost use Rattle.proof_model.specs.Claims.{IsTrueClaim};
ghost use Rattle.proof_model.specs.LeastLabels.{AreLeastLabels, IsRightClaim};
ghost use Rattle.proof_model.specs.Rules.{Proves};
ghost use Rattle.proof_model.specs.Scenes.{FailsFirst, HoldsClaim, ProveScene};
ghost use Rattle.proof_model.specs.declared.proof.Claim.{Claim};
ghost use Rattle.proof_model.specs.declared.proof.LabelRow.{LabelRow};
ghost use Rattle.proof_model.specs.declared.proof.Proof.{Proof};
ghost use Rattle.scene_model.specs.Routing.{floor_of};
ghost use Rattle.scene_model.specs.Scene.{Scene, connectors};
ghost use Rattle.scene_model.specs.Valid.{IsValid};
ghost use Rattle.walk_model.specs.Floors.{IsFloorOf};
ghost use Rattle.walk_model.specs.Legal.{IsTask};
ghost use Rattle.walk_model.specs.declared.task.Task.{Task};

/// Where labels prove a claim, it is true: a legal walk along the claimed line has the claimed
/// cost, and no legal walk at all costs less; for a cut, no walk is legal.
///
/// The arena stands for the floor, as that of each graph does for the floor that it is built of.
pub fn proved_claims_hold()
    ensures { (floor : Floor) (a : Arena) (task : Task) (claim : Claim) (rows : List LabelRow) →
        IsArena a → StandsFor floor a → IsTask task → IsFloorOf floor task →
        Proves floor task claim rows → IsTrueClaim floor.solids task claim }
{}

/// Where proofs prove a scene, the claim of each is true of its connector.
pub fn proved_scenes_hold()
    ensures { (s : Scene) (a : Arena) (proofs : List Proof) →
        IsValid s → IsArena a → StandsFor (floor_of s) a →
        ProveScene s proofs → AllZip (HoldsClaim s) (connectors s) proofs }
{}

/// Proofs that prove a scene fail nowhere, and others fail first at one connector, by one rule.
pub fn one_audit()
    ensures never_both { (s : Scene) (proofs : List Proof) (edge rule : ℕ) →
        ProveScene s proofs → FailsFirst s (connectors s) proofs edge rule → ⊥ }
    ensures one { (s : Scene) (proofs : List Proof) (d e q r : ℕ) →
        FailsFirst s (connectors s) proofs d q → FailsFirst s (connectors s) proofs e r →
        (d ≡ e) × (q ≡ r) }
{}

/// The least labels prove the right claim: the cost and the route of the first walk, or that no
/// walk is legal. There is one list of least labels.
pub fn least_labels_prove()
    ensures prove { (floor : Floor) (a : Arena) (task : Task) (claim : Claim) →
        (rows : List LabelRow) → IsArena a → StandsFor floor a → IsFloor floor → IsTask task →
        IsFloorOf floor task →
        IsRightClaim floor.solids task claim → AreLeastLabels floor task claim rows →
        Proves floor task claim rows }
    ensures one { (floor : Floor) (task : Task) (claim : Claim) →
        (rows others : List LabelRow) → AreLeastLabels floor task claim rows →
        AreLeastLabels floor task claim others → rows ≡ others }
{}
