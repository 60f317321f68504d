//! The rules on entries, moves and endings, over lists.
ghost use Rattle.std.specs.Prelude.{◌↔◌, List, length, All, AllPairs, IsTrue};
ghost use Rattle.line_arena.specs.Arena.{Arena, IsArena};
ghost use Rattle.line_arena.specs.Stands.{StandsFor};
ghost use Rattle.plane_geom.specs.declared.floor.Floor.{Floor};
ghost use Rattle.plane_geom.specs.declared.point.Dir.{Dir};
ghost use Rattle.walk_model.specs.declared.task.Task.{Task};
ghost use Rattle.search_problem.specs.Ends.{AreEndings, AreEntries};
ghost use Rattle.search_problem.specs.declared.ends.Ending.{Ending};
ghost use Rattle.search_problem.specs.declared.ends.Entry.{Entry};
ghost use Rattle.proof_model.specs.declared.proof.Claim.{Claim};
ghost use Rattle.proof_model.specs.declared.proof.LabelRow.{LabelRow};
ghost use Rattle.proof_model.specs.Labels.{is_before};
ghost use Rattle.proof_model.specs.Rules.{AreEntriesFound, AreMovesFound, MayAllEnd};
ghost use Rattle.route_audit.specs.Ends.{IsEntryFound, MayEndAt};
ghost use Rattle.route_audit.specs.Moves.{AreMovesInFound};

/// The rules hold of all entries, moves and endings of a floor exactly where they hold of those of
/// the lists that a search reads, and of the rows.
pub(crate) fn rules_by_lists()
    ensures entries { (floor : Floor) (a : Arena) (task : Task) (claim : Claim) (rows : List LabelRow) (entries : List Entry) →
        IsArena a → StandsFor floor a → AreEntries floor.solids a task (length task.starts) entries →
        All (IsEntryFound claim rows) entries ↔ AreEntriesFound floor task claim rows }
    ensures moves { (floor : Floor) (task : Task) (claim : Claim) (rows : List LabelRow) →
        AllPairs (λ a b. IsTrue (is_before a b)) rows →
        All (λ r. (d : Dir) → AreMovesInFound floor task claim rows r d) rows ↔ AreMovesFound floor task claim rows }
    ensures endings { (floor : Floor) (a : Arena) (task : Task) (claim : Claim) (rows : List LabelRow) (endings : List Ending) →
        IsArena a → StandsFor floor a → AreEndings floor.solids a task (length task.ends) endings →
        All (MayEndAt task claim rows) endings ↔ MayAllEnd floor task claim rows }
{}
