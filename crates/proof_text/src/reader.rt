//! Proofs as far as they are read, line by line.
ghost use Rattle.std.specs.Prelude.{
  ◌≡◌,
  ◌++◌,
  [],
  IfOk,
  IfSome,
  MatchOption,
  None,
  OnOk,
  Some,
  if◌then◌else◌,
};
ghost use Rattle.proof_text.specs.Lines.{IsOneLine};
ghost use Rattle.proof_text.specs.Reading.{
  BeginsWith,
  GoesOn,
  IsStuck,
  new_proof,
  proofs_of,
  state_of,
  with_line,
  with_point,
};

use crate::form::line_of;
use crate::line::Line;
use plane_geom::{Point, Points};
use proof_model::{Claim, LabelRow, Proof, Rows};
use std::alloc::{AllocError, Global};

/// The proofs that are read whole, and the one whose lines are being read.
#[derive(Drop)]
pub(crate) struct Reader {
    done: Vec<Proof>,
    last: Option<Proof>,
}

impl Reader {
    /// No line is read yet.
    pub(crate) fn new(alloc: Global) -> Reader
        ensures { state_of result ≡ ([], None) }
    {
        Reader {
            done: Vec::new(alloc),
            last: None,
        }
    }

    /// Reads the first line, and gives what follows it; none where no text can go on with it.
    pub(crate) fn take_line<'a>(
        &mut self,
        alloc: Global,
        bytes: &'a [u8],
    ) -> Result<Option<&'a [u8]>, AllocError>
        ensures goes_on { IfOk result (λ after. IfSome after (λ rest.
            GoesOn bytes.now rest.now (state_of self.old) (state_of self.new))) }
        ensures stuck { result ≡ Ok None → IsStuck bytes.now (state_of self.old) }
    {
        let Some((line, after)) = first_line(bytes) else {
            return Ok(None);
        };
        let Some(line) = line_of(line) else {
            return Ok(None);
        };
        if self.add(alloc, line)? {
            Ok(Some(after))
        } else {
            Ok(None)
        }
    }

    /// Adds what a line says, and returns whether a text can go on with it.
    fn add(&mut self, alloc: Global, line: Line) -> Result<bool, AllocError>
        ensures { IfOk result (λ added.
            with_line (state_of self.old) line
            ≡ (if added then Some (state_of self.new) else None)) }
    {
        match line {
            Line::Edge { edge, cost } => {
                self.begin(alloc, edge, cost)?;
                Ok(true)
            }
            Line::Corner(point) => match &mut self.last {
                Some(proof) => put_point(proof, point),
                None => Ok(false),
            },
            Line::Row(row) => match &mut self.last {
                Some(proof) => {
                    proof.rows.0.push(row)?;
                    Ok(true)
                }
                None => Ok(false),
            },
        }
    }

    /// Begins the next proof.
    fn begin(&mut self, alloc: Global, edge: u32, cost: Option<u64>) -> Result<(), AllocError>
        ensures done { OnOk result (self.new.done.items ≡ proofs_of (state_of self.old)) }
        ensures last { OnOk result (self.new.last ≡ Some (new_proof edge cost)) }
    {
        if let Some(proof) = self.last.take() {
            self.done.push(proof)?;
        }
        self.last = Some(new_proof(alloc, edge, cost));
        Ok(())
    }

    /// The proofs that were read.
    pub(crate) fn finish(self) -> Result<Vec<Proof>, AllocError>
        ensures { IfOk result (λ proofs. proofs.items ≡ proofs_of (state_of self)) }
    {
        let Reader { mut done, last } = self;
        if let Some(proof) = last {
            done.push(proof)?;
        }
        Ok(done)
    }
}

/// The first line, without its line feed, and what follows it; none where there is no line feed.
fn first_line(bytes: &[u8]) -> Option<(&[u8], &[u8])>
    ensures { MatchOption result (IsOneLine bytes.now) (λ parts.
        BeginsWith bytes.now parts.0.now parts.1.now) }
{
    let end = bytes.iter().position(|byte| *byte == b'\n')?;
    Some((&bytes[..end], &bytes[end + 1..]))
}

/// A proof of which only the first line is read.
fn new_proof(alloc: Global, edge: u32, cost: Option<u64>) -> Proof
    ensures { result ≡ new_proof edge cost }
{
    let claim = match cost {
        None => Claim::Cut,
        Some(cost) => Claim::Cost {
            cost,
            points: Points::new(alloc),
        },
    };
    Proof {
        edge,
        claim,
        rows: Rows(Vec::new(alloc)),
    }
}

/// Adds a point, and returns whether one may follow: the proof claims a line and has no row yet.
fn put_point(proof: &mut Proof, point: Point) -> Result<bool, AllocError>
    ensures { IfOk result (λ added.
        with_point point proof.old ≡ (if added then Some proof.new else None)) }
{
    if !proof.rows.0.is_empty() {
        return Ok(false);
    }
    match &mut proof.claim {
        Claim::Cost { points, .. } => {
            points.push(point)?;
            Ok(true)
        }
        Claim::Cut => Ok(false),
    }
}
