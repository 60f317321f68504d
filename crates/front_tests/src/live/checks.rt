//! What is asked of the present scene, and connectors that are moved: each request, and what is replied to it.
//!
//! What is expected was found by an independent program.

use crate::live::runs::{Row, reported, whole_row, wrote};
use live_replies::End;

/// A connector with a checkpoint shares a part of the way of another, and the third leads from a box to itself.
const DIAGRAM: &str = "graph [
  node [ id 1 graphics [ x 0 y 0 w 20 h 20 ] ]
  node [ id 2 graphics [ x 100 y 0 w 20 h 20 ] ]
  node [ id 3 graphics [ x 100 y 100 w 20 h 20 ] ]
  node [ id 4 graphics [ x 200 y 100 w 20 h 20 ] pin [ class 1 x 0 y -10 dirs \"N\" ] ]
  edge [ source 1 target 2 ]
  edge [ source 1 target 3 via [ x 50 y 50 ] ]
  edge [ source 3 target 3 ]
]
";

/// Each verdict, and each reason for none. Neither ends the transaction that is open, of which they know nothing; a line that
/// is not valid does.
const CHECKS: &str = "shared
crossings
lines
check 1 0 0 100 0
 check\t1 0 0  0 40 100 40.000 100 0\r
check 1 0 0 100 0.5
check 1 5 0 100 0
check 1 0 0 99 0
check 1
check 2 0 0 0 100 100 100
check 2 0 0 100 0 100 100
check 3 0 0
check 4 0 0
check 1 0 0 3000000000 0
check 1 0 -99999999999999999999 9 9
begin
node 5 25 -50 20 20
node 6 25 50 20 20
edge 5 6 0 0
crossings
check 4 25 -50 25 50
commit
shared
crossings\r
check 4 25 -50 25 50
begin
check 4 25
commit
check
check x 0 0
check 1 0 zero
shared 1
 crossings
quit
";

const CHECKS_REPLIES: &str = "shared 1 2 runs 1-1: back tie, ahead left, side left
ok
crossings 0
ok
line 1 0.000 0.000 100.000 0.000
line 2 0.000 0.000 50.000 0.000 50.000 100.000 100.000 100.000
ok
edge 1: cost 100.000
ok
edge 1: cost 280.000
ok
edge 1: Slanted 1
ok
edge 1: StartOff
ok
edge 1: EndOff
ok
edge 1: StartOff
ok
edge 2: MissesVia 1
ok
edge 2: Hits 1 node 2
ok
refused X8 SameNode 3
refused X5 UnknownEdge 4
refused X9 OutOfRange 5
refused X9 OutOfRange 3
ok
ok
ok
ok
crossings 0
ok
refused X5 UnknownEdge 4
line 4 25.000 -50.000 25.000 50.000
ok
shared 1 2 runs 1-1: back tie, ahead left, side left
ok
crossings 2
ok
edge 4: cost 100.000
ok
ok
refused X1 Syntax
refused X2 NoTransaction
refused X1 Syntax
refused X1 Syntax
refused X1 Syntax
refused X1 Syntax
refused X1 Syntax
ok
";

/// A connector keeps its other end and its checkpoint, in one step of the history, and gets a new number. What is refused ends
/// the transaction.
const RECONNECTS: &str = "lines
reconnect 2 target 4 1
begin
reconnect 2 target 4 1
next
preview
commit
shared
undo
redo
begin
reconnect 4 target 3 0
reconnect  5\tsource 2 0\r
commit
shared
begin
reconnect 9 source 1 0
commit
begin
reconnect 6 target 9 0
begin
reconnect 6 source 4 7
begin
reconnect 6 source 3 0
begin
reconnect 6 end 1 0
commit
reconnect 6 source 1
reconnect 6 source 1 0 0
reconnect 6 source 9999999999999999999 0
reconnect
next
quit
";

const RECONNECTS_REPLIES: &str = "line 1 0.000 0.000 100.000 0.000
line 2 0.000 0.000 50.000 0.000 50.000 100.000 100.000 100.000
ok
refused X2 NoTransaction
ok
connector 4
ok
next 5
ok
no line 2
line 4 0.000 0.000 0.000 50.000 200.000 50.000 200.000 90.000
ok
no line 2
line 4 0.000 0.000 0.000 50.000 200.000 50.000 200.000 90.000
ok
ok
no line 4
line 2 0.000 0.000 50.000 0.000 50.000 100.000 100.000 100.000
ok
no line 2
line 4 0.000 0.000 0.000 50.000 200.000 50.000 200.000 90.000
ok
ok
connector 5
ok
connector 6
ok
no line 4
line 6 100.000 0.000 50.000 0.000 50.000 100.000 100.000 100.000
ok
shared 1 6 runs 1-1: back left, ahead tie, side left
ok
ok
refused X5 UnknownEdge 9
refused X2 NoTransaction
ok
refused X4 UnknownNode 9
ok
refused X11 UnknownPinClass 7
ok
refused X8 SameNode 3
ok
refused X1 Syntax
refused X2 NoTransaction
refused X1 Syntax
refused X1 Syntax
refused X1 Syntax
refused X1 Syntax
next 7
ok
ok
";

fn rows() -> [Row<'static>; 2] {
    [
        Row {
            diagram: DIAGRAM,
            ..whole_row("checks", CHECKS.as_bytes(), CHECKS_REPLIES)
        },
        Row {
            diagram: DIAGRAM,
            ..whole_row("reconnects", RECONNECTS.as_bytes(), RECONNECTS_REPLIES)
        },
    ]
}

#[test]
fn answers_what_is_asked_of_connectors(rt: HostRuntime) {
    for row in rows() {
        let reported = reported(&rt, rt.alloc(), &row);
        assert_eq!(rt; reported, Some(wrote(Ok(End::Quit))), "{}", row.name);
    }
}
