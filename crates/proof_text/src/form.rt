//! The forms of lines, each by its name and the words after it.
ghost use Rattle.std.specs.Prelude.{◌≡◌, map};
ghost use Rattle.proof_text.specs.Forms.{
  claim_form,
  edge_form,
  form_of,
  labels_form,
  line_of,
  line_of_words,
  point_form,
  point_of,
  row_form,
};

use crate::line::Line;
use crate::value::{index, label, natural, whole};
use plane_geom::Point;
use proof_model::LabelRow;

/// One word more than the longest line has.
const MOST_WORDS: usize = 9;

/// What a line says, without its line feed.
pub(crate) fn line_of(line: &[u8]) -> Option<Line>
    ensures { result ≡ line_of line.now }
{
    let mut words: [&[u8]; MOST_WORDS] = [&[]; MOST_WORDS];
    let mut count = 0;
    for word in line.split(|byte| *byte == b' ').take(MOST_WORDS) {
        words[count] = word;
        count += 1;
    }
    line_of_words(&words[..count])
}

fn line_of_words(words: &[&[u8]]) -> Option<Line>
    ensures { result ≡ line_of_words (map (λ w. w.now) words.now) }
{
    let (name, args) = words.split_first()?;
    form_of(name, args)
}

fn form_of(name: &[u8], args: &[&[u8]]) -> Option<Line>
    ensures { result ≡ form_of name.now (map (λ w. w.now) args.now) }
{
    if name == b"edge".as_slice() {
        edge_form(args)
    } else if name == b"point".as_slice() {
        point_form(args)
    } else if name == b"label".as_slice() {
        row_form(args)
    } else {
        None
    }
}

fn edge_form(args: &[&[u8]]) -> Option<Line>
    ensures { result ≡ edge_form (map (λ w. w.now) args.now) }
{
    let (edge, claim) = args.split_first()?;
    Some(Line::Edge {
        edge: index(edge)?,
        cost: claim_form(claim)?,
    })
}

fn claim_form(args: &[&[u8]]) -> Option<Option<u64>>
    ensures { result ≡ claim_form (map (λ w. w.now) args.now) }
{
    match args {
        [name] if *name == b"cut".as_slice() => Some(None),
        [name, cost] if *name == b"cost".as_slice() => Some(Some(natural(cost)?)),
        _ => None,
    }
}

fn point_form(args: &[&[u8]]) -> Option<Line>
    ensures { result ≡ point_form (map (λ w. w.now) args.now) }
{
    let [x, y] = args else {
        return None;
    };
    Some(Line::Corner(point_of(x, y)?))
}

fn point_of(x: &[u8], y: &[u8]) -> Option<Point>
    ensures { result ≡ point_of x.now y.now }
{
    Some(Point {
        x: whole(x)?,
        y: whole(y)?,
    })
}

fn row_form(args: &[&[u8]]) -> Option<Line>
    ensures { result ≡ row_form (map (λ w. w.now) args.now) }
{
    let [stage, x, y, labels @ ..] = args else {
        return None;
    };
    labels_form(index(stage)?, point_of(x, y)?, labels)
}

fn labels_form(stage: u32, at: Point, labels: &[&[u8]]) -> Option<Line>
    ensures { result ≡ labels_form stage at (map (λ w. w.now) labels.now) }
{
    let [east, south, west, north] = labels else {
        return None;
    };
    Some(Line::Row(LabelRow {
        stage,
        at,
        east: label(east)?,
        south: label(south)?,
        west: label(west)?,
        north: label(north)?,
    }))
}
