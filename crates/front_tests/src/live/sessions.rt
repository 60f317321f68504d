//! Whole sessions: each request, and what is replied to it.
//!
//! What is expected was found by an independent program.

use crate::live::runs::{Row, reported, whole_row, wrote};
use live_replies::End;

/// The session of the guide: a box between two others, a step back and forth, and an edit that is refused.
const GUIDE: &str = "begin
node 1 0 0 20 20
node 2 100 0 20 20
edge 1 2 0 0
commit
next
begin
node 3 50 0 20 40
preview
commit
undo
redo
begin
drop 1
commit
undo
quit
";

const GUIDE_REPLIES: &str = "ok
ok
ok
ok
line 1 0.000 0.000 100.000 0.000
ok
next 2
ok
ok
ok
line 1 0.000 0.000 0.000 -24.000 100.000 -24.000 100.000 0.000
ok
line 1 0.000 0.000 0.000 -24.000 100.000 -24.000 100.000 0.000
ok
line 1 0.000 0.000 100.000 0.000
ok
line 1 0.000 0.000 0.000 -24.000 100.000 -24.000 100.000 0.000
ok
ok
refused X7 NodeInUse 1
refused X2 NoTransaction
line 1 0.000 0.000 100.000 0.000
ok
ok
";

/// Previews outside a transaction and in one: without edits, of lines that are new, change, go and stay, and after a
/// refused edit. Each commit reports what the preview before it reported.
const PREVIEWS: &str = "preview
begin
preview
node 1 0 0 20 20
node 2 100 0 20 20
node 4 0 100 20 20
edge 1 2 0 0
edge 1 4 0 0
preview
preview
lines
commit
next
begin
node 3 50 0 20 40
preview
move 3 50 200
preview
abort
lines
begin
cut 1
preview
move 9 0 0
preview
begin
node 3 100 0 20 20
preview
commit
preview
undo
begin
move 2 100 40
move 4 0 140
preview
commit
begin
preview
commit
undo
quit
";

const PREVIEWS_REPLIES: &str = "refused X2 NoTransaction
ok
ok
ok
ok
ok
ok
ok
line 1 0.000 0.000 100.000 0.000
line 2 0.000 0.000 0.000 100.000
ok
line 1 0.000 0.000 100.000 0.000
line 2 0.000 0.000 0.000 100.000
ok
ok
line 1 0.000 0.000 100.000 0.000
line 2 0.000 0.000 0.000 100.000
ok
next 3
ok
ok
ok
line 1 0.000 0.000 0.000 -24.000 100.000 -24.000 100.000 0.000
ok
ok
ok
ok
line 1 0.000 0.000 100.000 0.000
line 2 0.000 0.000 0.000 100.000
ok
ok
ok
no line 1
ok
refused X4 UnknownNode 9
refused X2 NoTransaction
ok
ok
no line 1
ok
no line 1
ok
refused X2 NoTransaction
line 1 0.000 0.000 100.000 0.000
ok
ok
ok
ok
line 1 0.000 0.000 0.000 40.000 100.000 40.000
line 2 0.000 0.000 0.000 140.000
ok
line 1 0.000 0.000 0.000 40.000 100.000 40.000
line 2 0.000 0.000 0.000 140.000
ok
ok
ok
ok
ok
ok
";

/// Each kind of line: comments, spaces, carriage returns, and every refusal of a command.
const KINDS: &str = "# a comment

 \t
lines
 lines
begin\r
node 1 0 0 20 20\r
node 2 100.5 0 20 20
edge 1 2 0 0
lines\r
commit\r
lines
begin
begin
undo
undo
redo
redo
abort
frobnicate
Preview
preview 1
begin
node 1 0 0 20 20
begin
set nudge 3
commit
begin
cut 1
abort
begin
cut 1
commit
next
lines
undo
redo
undo
quit\r
";

const KINDS_REPLIES: &str = "ok
ok
ok
ok
refused X1 Syntax
ok
ok
ok
ok
ok
line 1 0.000 0.000 100.500 0.000
ok
line 1 0.000 0.000 100.500 0.000
ok
ok
refused X3 AlreadyOpen
no line 1
ok
refused X14 NothingToUndo
line 1 0.000 0.000 100.500 0.000
ok
refused X15 NothingToRedo
refused X2 NoTransaction
refused X1 Syntax
refused X1 Syntax
refused X1 Syntax
ok
refused X6 NodeExists 1
ok
ok
ok
ok
ok
ok
ok
ok
no line 1
ok
next 2
ok
ok
line 1 0.000 0.000 100.500 0.000
ok
no line 1
ok
line 1 0.000 0.000 100.500 0.000
ok
ok
";

/// A diagram with keys of its own, which it keeps. The line after `quit` is not read.
const KEPT: &str = "graph [
  directed 1
  router [ buffer 10 ]
  node [ id 1 label \"Orders\" graphics [ x 0 y 0 w 20 h 20 fill \"#ccc\" ] ]
  node [ id 2 graphics [ x 100 y 0 w 20 h 20 ] weight 1.50 ]
  edge [ source 1 target 2 label \"pays\" graphics [ width 2 Line [ point [ x 0 y 0 ] point [ x 7 y 7 ] ] ] ]
]
note \"kept\"
";

const KEPT_REQUESTS: &str =
    "begin\nnode 3 50 0 20 40\nedge 1 3 0 0\npreview\ncommit\ngml\nundo\ngml\nquit\nlines\n";

const KEPT_REPLIES: &str = "ok
ok
ok
line 1 0.000 0.000 0.000 -30.000 100.000 -30.000 100.000 0.000
line 2 0.000 0.000 50.000 0.000
ok
line 1 0.000 0.000 0.000 -30.000 100.000 -30.000 100.000 0.000
line 2 0.000 0.000 50.000 0.000
ok
gml 965
graph [
  directed 1
  router [
    buffer 10
  ]
  node [
    id 1
    label \"Orders\"
    graphics [
      x 0
      y 0
      w 20
      h 20
      fill \"#ccc\"
    ]
  ]
  node [
    id 2
    graphics [
      x 100
      y 0
      w 20
      h 20
    ]
    weight 1.50
  ]
  edge [
    source 1
    target 2
    label \"pays\"
    graphics [
      width 2
      Line [
        point [
          x 0.000
          y 0.000
        ]
        point [
          x 0.000
          y -30.000
        ]
        point [
          x 100.000
          y -30.000
        ]
        point [
          x 100.000
          y 0.000
        ]
      ]
    ]
  ]
  node [
    id 3
    graphics [
      x 50.000
      y 0.000
      w 20.000
      h 40.000
    ]
  ]
  edge [
    source 1
    target 3
    graphics [
      Line [
        point [
          x 0.000
          y 0.000
        ]
        point [
          x 50.000
          y 0.000
        ]
      ]
    ]
  ]
]
note \"kept\"
ok
no line 2
line 1 0.000 0.000 100.000 0.000
ok
gml 527
graph [
  directed 1
  router [
    buffer 10
  ]
  node [
    id 1
    label \"Orders\"
    graphics [
      x 0
      y 0
      w 20
      h 20
      fill \"#ccc\"
    ]
  ]
  node [
    id 2
    graphics [
      x 100
      y 0
      w 20
      h 20
    ]
    weight 1.50
  ]
  edge [
    source 1
    target 2
    label \"pays\"
    graphics [
      width 2
      Line [
        point [
          x 0.000
          y 0.000
        ]
        point [
          x 100.000
          y 0.000
        ]
      ]
    ]
  ]
]
note \"kept\"
ok
ok
";

/// The sessions, none of which meets a fault.
fn rows() -> [Row<'static>; 4] {
    [
        whole_row("the session of the guide", GUIDE.as_bytes(), GUIDE_REPLIES),
        whole_row("previews", PREVIEWS.as_bytes(), PREVIEWS_REPLIES),
        whole_row("each kind of line", KINDS.as_bytes(), KINDS_REPLIES),
        Row {
            diagram: KEPT,
            ..whole_row("a diagram", KEPT_REQUESTS.as_bytes(), KEPT_REPLIES)
        },
    ]
}

#[test]
fn replies_to_each_request(rt: HostRuntime) {
    for row in rows() {
        let reported = reported(&rt, rt.alloc(), &row);
        assert_eq!(rt; reported, Some(wrote(Ok(End::Quit))), "{}", row.name);
    }
}
