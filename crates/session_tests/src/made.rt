//! What is generated from seed 1, as an independent program generates it.

use form_make::{Summary, made_commands, made_scene};
use scene_model::{Command, Edit, Node};
use scene_store::Scene;

/// A node's centre and the halves of its size.
type Place = (i64, i64, i64, i64);

/// The first, the third and the last node.
const PLACES: [Option<Place>; 4] = [
    Some((14_000, 13_000, 25_500, 29_500)),
    Some((416_000, -16_000, 17_500, 31_000)),
    Some((1_018_000, 988_000, 26_500, 26_000)),
    None,
];

/// Edges and their ends.
const ENDS: [(u32, (i64, i64)); 3] = [(1, (26, 12)), (3, (36, 13)), (48, (18, 15))];

/// The third transaction, and the last command.
const THIRD: [Command; 4] = [
    Command::Begin,
    Command::Edit(Edit::MoveNode {
        id: 28,
        x: 343_000,
        y: 781_000,
    }),
    Command::Commit,
    Command::Undo,
];

const LAST: Command = Command::Edit(Edit::MoveNode {
    id: 29,
    x: 670_000,
    y: 402_000,
});

fn place_of(node: Option<&Node>) -> Option<Place> {
    let node = node?;
    Some((node.x, node.y, node.half_w, node.half_h))
}

/// The ends of the edge with the number.
fn ends_of(scene: &Scene, number: u32) -> Option<(i64, i64)> {
    let edge = scene.edge(number)?;
    Some((edge.from, edge.to))
}

/// The places of the nodes 1 and 3, and of those at 35 and 36.
fn places(scene: &Scene) -> [Option<Place>; 4] {
    [
        place_of(scene.node(1)),
        place_of(scene.node(3)),
        place_of(scene.node_at(35)),
        place_of(scene.node_at(36)),
    ]
}

/// Whether the ends of the edges are those of the rows, and no edge comes after them.
fn has_edges(scene: &Scene) -> bool {
    for &(number, ends) in &ENDS {
        if ends_of(scene, number) != Some(ends) {
            return false;
        }
    }
    scene.next_edge() == 49
}

#[test]
fn makes_the_scene(rt: HostRuntime) {
    let scene = made_scene(rt.alloc(), 1).expect(&rt, "no memory for the scene");
    assert_eq!(rt; places(&scene), PLACES);
    assert!(rt; has_edges(&scene));
}

/// Whether there are 40 commands, with the third transaction and the last command at their places.
fn are_made(commands: &[Command]) -> bool {
    commands.len() == 40
        && commands.get(6..10) == Some(THIRD.as_slice())
        && commands.get(37) == Some(&LAST)
}

#[test]
fn makes_the_commands(rt: HostRuntime) {
    let commands = made_commands(rt.alloc(), 1).expect(&rt, "no memory for the commands");
    assert!(rt; are_made(commands.as_slice()));
}

#[test]
fn writes_the_summary(rt: HostRuntime) {
    let summary = Summary {
        routed: 47,
        unrouted: 1,
        cost: 36_893_488_147_419_103_232_005,
        bends: 80,
        searched: 250,
    };
    let lines =
        "nodes 36\nedges 48\nrouted 47\nno route 1\ncost 36893488147419103232.005\nbends 80\nsearched 250\n";
    let text = summary
        .text(rt.alloc())
        .expect(&rt, "no memory for the text");
    assert_eq!(rt; text.as_str(), lines);
}
