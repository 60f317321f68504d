//! A transaction of many edits, and its parts.

use scene_model::{Edit, Inverse, SceneFault};
use scene_store::Scene;
use session_model::{Txn, TxnParts};

fn add_node(txn: &mut Txn, id: i64) -> Result<(), SceneFault> {
    let (x, y, w, h) = (0, 0, 20, 20);
    txn.apply(&Edit::AddNode { id, x, y, w, h })
}

/// The greatest number of nodes.
fn add_nodes(txn: &mut Txn) -> Result<(), SceneFault> {
    for id in 0..256 {
        add_node(txn, id)?;
    }
    Ok(())
}

fn connect(txn: &mut Txn, from: i64, to: i64) -> Result<(), SceneFault> {
    txn.apply(&Edit::AddEdge {
        from,
        to,
        from_class: 0,
        to_class: 0,
    })
}

/// The parts are those of 256 added nodes and an edge.
fn are_all(parts: &TxnParts) -> bool {
    let last = parts.back.0.as_slice().last();
    parts.forth.0.len() == 257
        && parts.back.0.len() == 257
        && matches!(last, Some(Inverse::TakeEdge { number: 1, next: 1 }))
        && parts.scene.node(255).is_some()
}

/// The faults of all nodes, of one more, and of an edge.
fn faults(txn: &mut Txn) -> [Option<SceneFault>; 3] {
    [
        add_nodes(txn).err(),
        add_node(txn, 256).err(),
        connect(txn, 3, 200).err(),
    ]
}

#[test]
fn keeps_edits_and_inverses(rt: HostRuntime) {
    let scene = Scene::new(rt.alloc());
    let mut txn = Txn::begin(rt.alloc(), &scene).expect(&rt, "no memory for the transaction");
    assert_eq!(rt;
        faults(&mut txn),
        [None, Some(SceneFault::TooMany { limit: 256 }), None]
    );
    assert!(rt; txn.working().edge(1).is_some() && scene.edge(1).is_none());
    assert!(rt; are_all(&txn.into_parts()));
}
