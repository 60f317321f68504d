//! Laws of the text: what is written is read again as it was, and bytes are read in one way.
ghost use Rattle.std.specs.Prelude.{◌≡◌, ◌↔◌, List, ℕ};
ghost use Rattle.proof_model.specs.declared.proof.Proof.{Proof};
ghost use Rattle.proof_text.specs.Fronts.{CanGoOn, IsBadLine};
ghost use Rattle.proof_text.specs.Lines.{AreWholeLines};
ghost use Rattle.proof_text.specs.Text.{AreWritable, IsText, proofs_text};

/// What is written is read again as it was, where its numbers are within the bounds of the text.
pub fn read_back()
    ensures same { (written read : List Proof) → AreWritable written
        → IsText (proofs_text written) read → read ≡ written }
    ensures no_fault { (written : List Proof) (line : ℕ) → AreWritable written
        → IsBadLine (proofs_text written) line → ⊥ }
{}

/// Bytes are the text of one list of proofs at most, or have one bad line, and not both.
pub fn read_once()
    ensures one_list { (bytes : List ℕ) (a b : List Proof) → IsText bytes a → IsText bytes b
        → a ≡ b }
    ensures one_line { (bytes : List ℕ) (l m : ℕ) → IsBadLine bytes l → IsBadLine bytes m
        → l ≡ m }
    ensures not_both { (bytes : List ℕ) (proofs : List Proof) (line : ℕ) → IsText bytes proofs
        → IsBadLine bytes line → ⊥ }
{}

/// A text can go on after whole lines exactly where they are a text themselves.
pub fn fronts_are_texts()
    ensures { (front : List ℕ) (count : ℕ) → AreWholeLines front count
        → (CanGoOn front ↔ ((proofs : List Proof) × IsText front proofs)) }
{}
