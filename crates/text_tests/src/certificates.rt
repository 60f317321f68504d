//! The text of proofs of cost: rows of texts with their first bad line, and what good ones say.

use proof_model::{Claim, LabelRow, Proof};
use proof_text::{ProofFault, read_proofs, write_proofs};
use std::alloc::{AllocError, Global};
use std::test::Fail;

/// Texts, each with its first bad line, or 0 where it has none.
const ROWS: [(&str, u64); 48] = [
    ("", 0),
    ("edge 1 cut\n", 0),
    ("edge 0 cost 0\n", 0),
    ("edge 1 cost 7\npoint 0 -5\npoint 100 0\nedge 1 cut\n", 0),
    (
        "edge 1 cost 7\nlabel 0 1 2 - - - -\nlabel 0 1 2 0 6 - 9\n",
        0,
    ),
    (
        "edge 1 cut\nlabel 4294967295 -1 0 0 - 0 -\nedge 4294967295 cut\n",
        0,
    ),
    (
        "edge 2 cost 999999999999999999\npoint -999999999999999999 999999999999999999\n",
        0,
    ),
    ("edge 01 cut\n", 1),
    ("edge 1 cost 00\n", 1),
    ("edge 1 cut\nlabel 00 0 0 - - - -\n", 2),
    ("edge 1 cost 5\npoint -0 0\n", 2),
    ("edge 1 cost 5\npoint 0 -01\n", 2),
    ("edge 1 cost 5\npoint 0 +1\n", 2),
    ("edge 1 cost 5\npoint 0 --1\n", 2),
    ("edge 1 cost 5\npoint - 1\n", 2),
    ("edge 1 cost -1\n", 1),
    ("edge -1 cut\n", 1),
    ("edge 1 cut\nlabel 0 0 0 -1 - - -\n", 2),
    ("edge 1 cut\nlabel 0 0 0 - +1 - -\n", 2),
    ("edge 1 cut\nlabel 0 0 0 - - -- -\n", 2),
    ("edge 1 cut\nlabel -1 0 0 - - - -\n", 2),
    ("edge 1 cost 9\nlabel 0 0 0 1 - - -\npoint 0 0\n", 3),
    ("edge 1 cut\npoint 0 0\n", 2),
    ("edge 1 cost 9\nedge 2 cut\npoint 0 0\n", 3),
    ("point 0 0\n", 1),
    ("label 0 0 0 - - - -\n", 1),
    ("edge 1 cut", 1),
    ("edge 1 cut\nedge 2 cut", 2),
    ("edge 1 cut\nlabel 0 0 0 - - - -\nx", 3),
    ("edge  1 cut\n", 1),
    (" edge 1 cut\n", 1),
    ("edge 1 cut \n", 1),
    ("edge\t1 cut\n", 1),
    ("edge 1 cut\r\n", 1),
    ("\n", 1),
    ("edge 1 cut\n\nedge 2 cut\n", 2),
    ("edge 1 cost 1000000000000000000\n", 1),
    ("edge 1 cost 1\npoint 0 -1000000000000000000\n", 2),
    ("edge 1 cut\nlabel 0 0 0 - - - 1000000000000000000\n", 2),
    ("edge 4294967296 cut\n", 1),
    ("edge 1 cut\nlabel 4294967296 0 0 - - - -\n", 2),
    ("edge 1\n", 1),
    ("edge 1 cost\n", 1),
    ("edge 1 cost 1 2\n", 1),
    ("Edge 1 cut\n", 1),
    ("edge 1 cost 1.5\n", 1),
    ("edge 1 cut\nlabel 0 0 0 - - -\n", 2),
    ("edge 1 cut\nlabel 0 0 0 - - - - -\n", 2),
];

/// The first bad line, or 0 where the bytes are a text that is written again as it was.
fn bad_line(alloc: Global, bytes: &[u8]) -> Result<u64, ProofFault> {
    match read_proofs(alloc, bytes) {
        Ok(proofs) => {
            let same = write_proofs(alloc, &proofs)?.as_slice() == bytes;
            Ok(if same { 0 } else { u64::MAX })
        }
        Err(ProofFault::Line { line }) => Ok(line),
        Err(ProofFault::Memory) => Err(ProofFault::Memory),
    }
}

#[test]
fn finds_the_first_bad_line(rt: HostRuntime) -> Result<(), Fail> {
    let alloc = rt.alloc();
    for &(text, line) in &ROWS {
        assert!(rt; bad_line(alloc, text.as_bytes())? == line, "in {text:?}");
    }
    Ok(())
}

/// What a proof has: its edge, the claimed cost, and how many points and rows.
type Shape = (u32, Option<u64>, usize, usize);

fn shape(proof: &Proof) -> Shape {
    let rows = proof.rows.as_slice().len();
    match &proof.claim {
        Claim::Cost { cost, points } => (proof.edge, Some(*cost), points.as_slice().len(), rows),
        Claim::Cut => (proof.edge, None, 0, rows),
    }
}

/// The first proof of a text that has another shape than expected, from 1, or 0 where none has.
fn misshapen(alloc: Global, bytes: &[u8], wanted: &[Shape]) -> Result<usize, ProofFault> {
    let proofs = read_proofs(alloc, bytes)?;
    Ok(first_misshapen(proofs.as_slice(), wanted))
}

fn first_misshapen(proofs: &[Proof], wanted: &[Shape]) -> usize {
    for (place, (proof, want)) in proofs.iter().zip(wanted).enumerate() {
        if shape(proof) != *want {
            return place.saturating_add(1);
        }
    }
    if proofs.len() == wanted.len() {
        0
    } else {
        usize::MAX
    }
}

#[test]
fn reads_what_the_lines_say(rt: HostRuntime) -> Result<(), Fail> {
    let text = "edge 7 cost 3\npoint 1 2\npoint -3 4\nedge 8 cut\nlabel 2 -6 0 5 - 0 -\n\
        label 3 0 0 - - - 1\nedge 7 cost 0\n";
    let wanted = [(7, Some(3), 2, 0), (8, None, 0, 2), (7, Some(0), 0, 0)];
    assert_eq!(rt; misshapen(rt.alloc(), text.as_bytes(), &wanted)?, 0);
    Ok(())
}

/// A row: its stage, its point, and the labels to the east, south, west and north.
type Label = (u32, i64, i64, [Option<u64>; 4]);

/// The first row of the first proof.
fn first_row(alloc: Global, bytes: &[u8]) -> Result<Option<Label>, ProofFault> {
    let proofs = read_proofs(alloc, bytes)?;
    let Some(proof) = proofs.as_slice().first() else {
        return Ok(None);
    };
    Ok(proof.rows.as_slice().first().map(label))
}

fn label(row: &LabelRow) -> Label {
    let labels = [row.east, row.south, row.west, row.north];
    (row.stage, row.at.x, row.at.y, labels)
}

#[test]
fn reads_a_row_in_its_order(rt: HostRuntime) -> Result<(), Fail> {
    let row = first_row(rt.alloc(), b"edge 1 cut\nlabel 2 -6 9 5 - 0 8\n")?;
    assert_eq!(rt; row, Some((2, -6, 9, [Some(5), None, Some(0), Some(8)])));
    Ok(())
}
