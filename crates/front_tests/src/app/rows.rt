//! Worked scripts and diagrams, and what the program must write for some of them, which was worked out
//! independently of this program.

/// A diagram without nodes.
pub(crate) const EMPTY: &[u8] = b"graph [ ]";

/// An edge that leads round a box, drawn as it is routed.
pub(crate) const ROUND: &[u8] = b"graph [ node [ id 1 graphics [ x 0 y 0 w 20 h 20 ] ] \
    node [ id 2 graphics [ x 100 y 0 w 20 h 20 ] ] node [ id 3 graphics [ x 50 y 0 w 20 h 40 ] ] \
    edge [ source 1 target 2 graphics [ Line [ \
    point [ x 0 y 0 ] point [ x 0 y -24 ] point [ x 100 y -24 ] point [ x 100 y 0 ] ] ] ] ]";

/// A straight edge.
pub(crate) const STRAIGHT: &[u8] = b"begin
node 1 0 0 20 20
node 2 100 0 20 20
edge 1 2 0 0
commit
";

pub(crate) const STRAIGHT_OUT: &str = "# edge 1: cost 100.000
graph [
  node [
    id 1
    graphics [
      x 0.000
      y 0.000
      w 20.000
      h 20.000
    ]
  ]
  node [
    id 2
    graphics [
      x 100.000
      y 0.000
      w 20.000
      h 20.000
    ]
  ]
  edge [
    source 1
    target 2
    graphics [
      Line [
        point [
          x 0.000
          y 0.000
        ]
        point [
          x 100.000
          y 0.000
        ]
      ]
    ]
  ]
]
";

/// Two edges that lead round a box.
pub(crate) const PARALLEL: &[u8] = b"begin
node 1 0 0 20 20
node 2 100 0 20 20
node 3 50 0 20 40
edge 1 2 0 0
edge 1 2 0 0
commit
";

pub(crate) const PARALLEL_OUT: &str = "# edge 1: cost 248.000
# edge 2: cost 248.000
graph [
  node [
    id 1
    graphics [
      x 0.000
      y 0.000
      w 20.000
      h 20.000
    ]
  ]
  node [
    id 2
    graphics [
      x 100.000
      y 0.000
      w 20.000
      h 20.000
    ]
  ]
  node [
    id 3
    graphics [
      x 50.000
      y 0.000
      w 20.000
      h 40.000
    ]
  ]
  edge [
    source 1
    target 2
    graphics [
      Line [
        point [
          x 0.000
          y 0.000
        ]
        point [
          x 0.000
          y -28.000
        ]
        point [
          x 100.000
          y -28.000
        ]
        point [
          x 100.000
          y 0.000
        ]
      ]
    ]
  ]
  edge [
    source 1
    target 2
    graphics [
      Line [
        point [
          x 0.000
          y 0.000
        ]
        point [
          x 0.000
          y -24.000
        ]
        point [
          x 100.000
          y -24.000
        ]
        point [
          x 100.000
          y 0.000
        ]
      ]
    ]
  ]
]
";

/// Five edges.
pub(crate) const FIVE: &[u8] = b"begin
node 1 0 0 20 20
node 2 100 0 20 20
edge 1 2 0 0
edge 1 2 0 0
edge 1 2 0 0
edge 1 2 0 0
edge 1 2 0 0
commit
";

/// An undo without a search.
pub(crate) const UNDONE: &[u8] = b"begin
node 1 0 0 20 20
node 2 100 0 20 20
node 3 50 0 20 40
edge 1 2 0 0
commit
begin
drop 3
commit
undo
";

/// Three proposals on the edge that leads round a box, the last of which is refused.
pub(crate) const PROPOSALS: &[u8] = b"begin
drop 3
commit
begin
move 3 50 500
commit
begin
drop 1
commit
";

pub(crate) const PROPOSALS_OUT: &str = "preview 1: searched 1
preview 1 edge 1: cost 100.000
preview 2: searched 1
preview 2 edge 1: cost 100.000
preview 3: X7 NodeInUse 1 at edit 1
";

/// Four proposals of nothing.
pub(crate) const FOUR: &[u8] = b"begin
commit
begin
commit
begin
commit
begin
commit
";
