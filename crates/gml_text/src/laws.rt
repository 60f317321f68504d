//! Laws of spelling, reading and printing.

ghost use Rattle.std.specs.Prelude.{◌≡◌, ℕ, List, Ok, Result};
ghost use Rattle.gml_text.specs.Grammar.{SpellsDocument};
ghost use Rattle.gml_text.specs.Parse.{ParsesAs};
ghost use Rattle.gml_text.specs.Printed.{IsGrammatical, IsPrintable, printed};
ghost use Rattle.gml_text.specs.Tree.{Pairs};
ghost use Rattle.gml_text.specs.declared.fault.GmlFault.{GmlFault};

/// No bytes are the spelling of two trees.
pub fn spelled_once()
    ensures { (bytes : List ℕ) (tree other : Pairs) → SpellsDocument tree bytes → SpellsDocument other bytes → tree ≡ other }
{}

/// No bytes are read in two ways: as two trees, as a tree and with a fault, or with two faults.
pub fn read_once()
    ensures { (bytes : List ℕ) (r s : Result Pairs GmlFault) → ParsesAs bytes r → ParsesAs bytes s → r ≡ s }
{}

/// What is printed is read again as the same tree.
pub fn printed_is_read()
    ensures spelled { (tree : Pairs) → IsGrammatical tree → SpellsDocument tree (printed tree) }
    ensures read { (tree : Pairs) → IsPrintable tree → ParsesAs (printed tree) (Ok tree) }
{}
