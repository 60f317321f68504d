//! Labels of what edits added: written with it, replaced, taken away, kept over an undo, and refused.

use crate::live::runs::{Row, reported, whole_row, wrote};
use live_replies::End;

const DIAGRAM: &str = "graph [ node [ id 1 label \"Orders\" graphics [ x 0 y 0 w 20 h 20 ] ] ]";

/// A label that has quotes, and a label of nothing that there is, are not valid lines: they end the transaction.
const REQUESTS: &str = "label box 3 to come
label box 1 not written
begin
node 3 50 0 20 40
edge 1 3 0 0
label connector 1 goes right
label box 3 Ship & bill
commit
undo
gml
redo
gml
label box 3
begin
label box 3 a \"quoted\" one
label circle 3 x
label connector -1 x
commit
gml
quit
";

const REPLIES: &str = "ok
ok
ok
ok
ok
ok
ok
line 1 0.000 0.000 50.000 0.000
ok
no line 1
ok
gml 114
graph [
  node [
    id 1
    label \"Orders\"
    graphics [
      x 0
      y 0
      w 20
      h 20
    ]
  ]
]
ok
line 1 0.000 0.000 50.000 0.000
ok
gml 469
graph [
  node [
    id 1
    label \"Orders\"
    graphics [
      x 0
      y 0
      w 20
      h 20
    ]
  ]
  node [
    id 3
    label \"Ship & bill\"
    graphics [
      x 50.000
      y 0.000
      w 20.000
      h 40.000
    ]
  ]
  edge [
    source 1
    target 3
    label \"goes right\"
    graphics [
      Line [
        point [
          x 0.000
          y 0.000
        ]
        point [
          x 50.000
          y 0.000
        ]
      ]
    ]
  ]
]
ok
ok
ok
refused X1 Syntax
refused X1 Syntax
refused X1 Syntax
refused X2 NoTransaction
gml 445
graph [
  node [
    id 1
    label \"Orders\"
    graphics [
      x 0
      y 0
      w 20
      h 20
    ]
  ]
  node [
    id 3
    graphics [
      x 50.000
      y 0.000
      w 20.000
      h 40.000
    ]
  ]
  edge [
    source 1
    target 3
    label \"goes right\"
    graphics [
      Line [
        point [
          x 0.000
          y 0.000
        ]
        point [
          x 50.000
          y 0.000
        ]
      ]
    ]
  ]
]
ok
ok
";

#[test]
fn writes_the_labels_of_what_was_added(rt: HostRuntime) {
    let row = Row {
        diagram: DIAGRAM,
        ..whole_row("labels", REQUESTS.as_bytes(), REPLIES)
    };
    let reported = reported(&rt, rt.alloc(), &row);
    assert_eq!(rt; reported, Some(wrote(Ok(End::Quit))));
}
