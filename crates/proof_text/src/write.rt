//! Proofs that are written.
ghost use Rattle.std.specs.Prelude.{◌≡◌, ◌++◌, ◌∷◌, IfOk, OnOk, decimal, map};
ghost use Rattle.std.specs.Fmt.{signed_decimal};
ghost use Rattle.proof_text.specs.Lines.{ended_line, text_of_lines};
ghost use Rattle.proof_text.specs.Text.{
  claimed_points,
  edge_line,
  label_word,
  point_line,
  proof_text,
  proofs_text,
  row_line,
};

use itoa::Buffer;
use plane_geom::Point;
use proof_model::{Claim, LabelRow, Proof};
use std::alloc::{AllocError, Global};

/// The text of the proofs. The work is linear in its length. The only error is out of memory.
///
/// `read_proofs` reads it again as these proofs where their labels, their costs and the sizes of
/// their coordinates are below 10^18.
pub fn write_proofs(alloc: Global, proofs: &[Proof]) -> Result<Vec<u8>, AllocError>
    ensures { IfOk result (λ bytes. bytes.items ≡ proofs_text proofs.now) }
{
    let mut out = Vec::new(alloc);
    push_proofs(&mut out, proofs)?;
    Ok(out)
}

fn push_proofs(out: &mut Vec<u8>, proofs: &[Proof]) -> Result<(), AllocError>
    ensures { OnOk result (out.new.items ≡ out.old.items ++ proofs_text proofs.now) }
{
    for proof in proofs {
        push_proof(out, proof)?;
    }
    Ok(())
}

fn push_proof(out: &mut Vec<u8>, proof: &Proof) -> Result<(), AllocError>
    ensures { OnOk result (out.new.items ≡ out.old.items ++ proof_text proof.now) }
{
    push_edge(out, proof.edge, &proof.claim)?;
    push_claimed(out, &proof.claim)?;
    push_rows(out, proof.rows.as_slice())?;
    Ok(())
}

fn push_edge(out: &mut Vec<u8>, edge: u32, claim: &Claim) -> Result<(), AllocError>
    ensures { OnOk result (out.new.items ≡ out.old.items ++ ended_line (edge_line edge claim.now)) }
{
    out.extend_from_slice(b"edge ")?;
    push_natural(out, u64::from(edge))?;
    match claim {
        Claim::Cut => out.extend_from_slice(b" cut\n"),
        Claim::Cost { cost, .. } => {
            out.extend_from_slice(b" cost ")?;
            push_natural(out, *cost)?;
            Ok(out.push(b'\n')?)
        }
    }
}

fn push_claimed(out: &mut Vec<u8>, claim: &Claim) -> Result<(), AllocError>
    ensures { OnOk result (out.new.items
        ≡ out.old.items ++ text_of_lines (map point_line (claimed_points claim.now))) }
{
    match claim {
        Claim::Cut => Ok(()),
        Claim::Cost { points, .. } => push_points(out, points.as_slice()),
    }
}

fn push_points(out: &mut Vec<u8>, points: &[Point]) -> Result<(), AllocError>
    ensures { OnOk result (out.new.items
        ≡ out.old.items ++ text_of_lines (map point_line points.now)) }
{
    for point in points {
        push_point_line(out, *point)?;
    }
    Ok(())
}

fn push_point_line(out: &mut Vec<u8>, point: Point) -> Result<(), AllocError>
    ensures { OnOk result (out.new.items ≡ out.old.items ++ ended_line (point_line point)) }
{
    out.extend_from_slice(b"point")?;
    push_point(out, point)?;
    Ok(out.push(b'\n')?)
}

fn push_rows(out: &mut Vec<u8>, rows: &[LabelRow]) -> Result<(), AllocError>
    ensures { OnOk result (out.new.items ≡ out.old.items ++ text_of_lines (map row_line rows.now)) }
{
    for row in rows {
        push_row_line(out, row)?;
    }
    Ok(())
}

fn push_row_line(out: &mut Vec<u8>, row: &LabelRow) -> Result<(), AllocError>
    ensures { OnOk result (out.new.items ≡ out.old.items ++ ended_line (row_line row.now)) }
{
    out.extend_from_slice(b"label ")?;
    push_natural(out, u64::from(row.stage))?;
    push_point(out, row.at)?;
    push_labels(out, row)?;
    Ok(out.push(b'\n')?)
}

fn push_labels(out: &mut Vec<u8>, row: &LabelRow) -> Result<(), AllocError>
    ensures { OnOk result (out.new.items ≡ out.old.items
        ++ (32 ∷ label_word row.now.east ++ 32 ∷ label_word row.now.south
        ++ 32 ∷ label_word row.now.west ++ 32 ∷ label_word row.now.north)) }
{
    push_label(out, row.east)?;
    push_label(out, row.south)?;
    push_label(out, row.west)?;
    push_label(out, row.north)
}

fn push_label(out: &mut Vec<u8>, label: Option<u64>) -> Result<(), AllocError>
    ensures { OnOk result (out.new.items ≡ out.old.items ++ 32 ∷ label_word label) }
{
    out.push(b' ')?;
    match label {
        None => Ok(out.push(b'-')?),
        Some(label) => push_natural(out, label),
    }
}

fn push_point(out: &mut Vec<u8>, point: Point) -> Result<(), AllocError>
    ensures { OnOk result (out.new.items ≡ out.old.items
        ++ (32 ∷ signed_decimal point.x ++ 32 ∷ signed_decimal point.y)) }
{
    out.push(b' ')?;
    push_whole(out, point.x)?;
    out.push(b' ')?;
    push_whole(out, point.y)
}

fn push_natural(out: &mut Vec<u8>, number: u64) -> Result<(), AllocError>
    ensures { OnOk result (out.new.items ≡ out.old.items ++ decimal number) }
{
    let mut buffer = Buffer::new();
    out.extend_from_slice(buffer.format(number).as_bytes())
}

fn push_whole(out: &mut Vec<u8>, number: i64) -> Result<(), AllocError>
    ensures { OnOk result (out.new.items ≡ out.old.items ++ signed_decimal number) }
{
    let mut buffer = Buffer::new();
    out.extend_from_slice(buffer.format(number).as_bytes())
}
