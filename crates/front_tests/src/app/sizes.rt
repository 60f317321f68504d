//! The certificate of a diagram that is as large as one with a certificate may be.

use crate::app::runs::{ends, faultless, written};
use reroute_app::Status;
use std::alloc::{AllocError, Global};
use std::test::Fail;
use std::thread::Threads;

/// 48 nodes in rows of eight, each with a pin in its centre.
fn push_nodes(diagram: &mut String) -> Result<(), AllocError> {
    for k in 0..48u32 {
        let (x, y) = (k % 8 * 100, k / 8 * 100);
        write!(
            diagram,
            " node [ id {k} graphics [ x {x} y {y} w 20 h 20 ] pin [ class 1 x 0 y 0 dirs \"ESWN\" ] ]"
        )?;
    }
    Ok(())
}

/// 64 edges, each from a node to the fifth after it and from its pin, the first 48 with a checkpoint between four nodes.
fn push_edges(diagram: &mut String) -> Result<(), AllocError> {
    for k in 0..64u32 {
        let (source, target) = (k % 48, (k + 5) % 48);
        write!(
            diagram,
            " edge [ source {source} target {target} sourcePin 1"
        )?;
        if k < 48 {
            let (x, y) = (k % 8 * 100 + 50, k / 8 * 100 + 50);
            write!(diagram, " via [ x {x} y {y} ]")?;
        }
        diagram.push_str(" ]")?;
    }
    Ok(())
}

fn greatest_diagram(alloc: Global) -> Result<String, AllocError> {
    let mut diagram = String::from_str(alloc, "graph [")?;
    push_nodes(&mut diagram)?;
    push_edges(&mut diagram)?;
    diagram.push_str(" ]")?;
    Ok(diagram)
}

/// Whether the audit accepts what `prove` writes for the diagram.
fn is_proved(
    rt: &(impl Threads + Sync),
    alloc: Global,
    diagram: &[u8],
) -> Result<bool, AllocError> {
    let proving = faultless("prove|d.gml", diagram, b"", Status::Done, None);
    let certificate = written(rt, alloc, &proving)?;
    let auditing = faultless(
        "audit|d.gml|s.txt",
        diagram,
        &certificate,
        Status::Done,
        Some("audit: yes\n"),
    );
    ends(rt, alloc, &auditing)
}

#[test]
fn proves_the_greatest_diagram(rt: HostRuntime) -> Result<(), Fail> {
    let diagram = greatest_diagram(rt.alloc())?;
    assert!(rt; is_proved(&rt, rt.alloc(), diagram.as_bytes())?);
    Ok(())
}
