//! The scene as it is told: the present one, and that of an open transaction.
//!
//! What is expected follows from the rules by hand.

use crate::live::runs::{Row, reported, whole_row, wrote};
use live_replies::End;

/// A group around two boxes, of which one has a pin, a connector with a checkpoint, and one from a box to itself.
const DIAGRAM: &str = "graph [
  node [ id -9 isGroup 1 graphics [ x 50 y 50.5 w 200 h 180 ] ]
  node [ id 1 graphics [ x 0 y 0 w 20 h 20 ] ]
  node [ id 2 graphics [ x 100 y 100 w 20 h 20 ] pin [ class 1 x 0 y -10 dirs \"WN\" ] ]
  edge [ source 1 target 2 via [ x 50 y 50 ] ]
  edge [ source 2 target 2 ]
]
";

/// A connector that was cut is told no more, and one that was added has no route in the present scene.
const SCENES: &str = "scene
begin
set buffer 5.5
via 1 2 50 75.25
node 3 25 -50 20 30
edge 3 2 0 1
cut 2
scene
scene 1
scene\r
quit
";

const SCENES_REPLIES: &str = "scene 3 2
settings 50.000 4.000 4.000
box -9 50.000 50.500 200.000 180.000 group
box 1 0.000 0.000 20.000 20.000
box 2 100.000 100.000 20.000 20.000
pin 1 0.000 -10.000 WN
connector 1 1 2 0 0 cost 300.000
checkpoint 50.000 50.000
connector 2 2 2 0 0 no route
ok
ok
ok
ok
ok
ok
ok
scene 4 2
settings 50.000 5.500 4.000
box -9 50.000 50.500 200.000 180.000 group
box 1 0.000 0.000 20.000 20.000
box 2 100.000 100.000 20.000 20.000
pin 1 0.000 -10.000 WN
box 3 25.000 -50.000 20.000 30.000
connector 1 1 2 0 0 cost 300.000
checkpoint 50.000 50.000
checkpoint 50.000 75.250
connector 3 3 2 0 1 no route
ok
refused X1 Syntax
scene 3 2
settings 50.000 4.000 4.000
box -9 50.000 50.500 200.000 180.000 group
box 1 0.000 0.000 20.000 20.000
box 2 100.000 100.000 20.000 20.000
pin 1 0.000 -10.000 WN
connector 1 1 2 0 0 cost 300.000
checkpoint 50.000 50.000
connector 2 2 2 0 0 no route
ok
ok
";

fn row() -> Row<'static> {
    Row {
        diagram: DIAGRAM,
        ..whole_row("scenes", SCENES.as_bytes(), SCENES_REPLIES)
    }
}

#[test]
fn tells_the_scene(rt: HostRuntime) {
    let reported = reported(&rt, rt.alloc(), &row());
    assert_eq!(rt; reported, Some(wrote(Ok(End::Quit))));
}
