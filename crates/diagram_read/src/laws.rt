//! The laws of reading a diagram, each the contract of a function with an empty body.
ghost use Rattle.diagram_read.specs.Laws.{FirstFaultsCount, NumbersAgree, OthersArePassedOver};

/// In a document that may be printed, such as each that `gml_text::parse` returns, exactly the
/// numbers are read as numbers.
pub fn numbers_agree()
    ensures { NumbersAgree }
{}

/// A fault of a node or an edge comes before all faults of later ones.
pub fn first_faults_count()
    ensures { FirstFaultsCount }
{}

/// A pair of a node's or an edge's list whose key has no meaning changes nothing.
pub fn others_are_passed_over()
    ensures { OthersArePassedOver }
{}
