//! The law that the number of a repair's writes is unique.
ghost use Rattle.std.specs.Prelude.{◌≡◌, ℕ};
ghost use Rattle.plane_geom.specs.declared.floor.Floor.{Floor};
ghost use Rattle.graph_repair.specs.Change.{IsWriteCount};

/// The number of writes from one floor to another is unique.
pub fn one_write_count()
    ensures { (old new : Floor) (m n : ℕ) → IsWriteCount old new m → IsWriteCount old new n → m ≡ n }
{}
