//! The laws of shared paths, each the contract of a function with an empty body.
ghost use Rattle.shared_paths.specs.Listed.{HaveOneListOfPaths};
ghost use Rattle.shared_paths.specs.Laws.{KeepSides};

/// Along a path that two routes share and that has a side, the one keeps to that side of the other.
///
/// At each pair its run stands before the other's in the order on their line exactly where the smaller
/// coordinate lies on that hand.
pub fn shared_paths_keep_sides()
    ensures { KeepSides }
{}

/// Routes have one list of shared paths.
pub fn one_list_of_paths()
    ensures { HaveOneListOfPaths }
{}
