//! Edits of a scene, their inverses, and the commands of a script.

use crate::edge::Edge;
use crate::node::Node;
use crate::pin::Dirs;
use crate::settings::Setting;
use std::marker::Model;

/// One edit of a scene. Lengths are in thousandths; places count from 1.
#[derive(Clone, Copy, Debug, PartialEq, Eq)]
pub enum Edit {
    AddNode {
        id: i64,
        x: i64,
        y: i64,
        w: i64,
        h: i64,
    },
    MoveNode {
        id: i64,
        x: i64,
        y: i64,
    },
    SizeNode {
        id: i64,
        w: i64,
        h: i64,
    },
    DropNode {
        id: i64,
    },
    AddPin {
        id: i64,
        class: u32,
        dx: i64,
        dy: i64,
        dirs: Dirs,
    },
    DropPin {
        id: i64,
        place: u32,
    },
    AddEdge {
        from: i64,
        to: i64,
        from_class: u32,
        to_class: u32,
    },
    CutEdge {
        number: u32,
    },
    SetClasses {
        number: u32,
        from_class: u32,
        to_class: u32,
    },
    AddVia {
        number: u32,
        place: u32,
        x: i64,
        y: i64,
    },
    DropVia {
        number: u32,
        place: u32,
    },
    Set {
        what: Setting,
        value: i64,
    },
}

/// A command of a script: an edit, or a command to the session. `Bad` is a line that is no command.
#[derive(Clone, Copy, Debug, PartialEq, Eq)]
pub enum Command {
    Begin,
    Edit(Edit),
    Commit,
    Abort,
    Undo,
    Redo,
    Bad,
}

/// The inverse of an edit. Places count from 1.
#[derive(Drop)]
pub enum Inverse {
    PutNode { place: u32, node: Node },
    TakeNode { id: i64 },
    SetNode { node: Node },
    PutEdge { place: u32, edge: Edge },
    TakeEdge { number: u32, next: u32 },
    SetEdge { edge: Edge },
    Set { what: Setting, value: i64 },
}

/// Edits, in order.
#[derive(Drop)]
pub struct Edits(pub Vec<Edit>);

impl Model for Edits {
    ghost use Rattle.std.specs.Prelude.{List};
    ghost use Rattle.scene_model.specs.declared.edit.Edit.{Edit};

    ghost Value = { List Edit };

    ghost view = { λ e. e.0.items };
}

/// The inverses of edits, in the order of the edits.
#[derive(Drop)]
pub struct Inverses(pub Vec<Inverse>);

impl Model for Inverses {
    ghost use Rattle.std.specs.Prelude.{List};
    ghost use Rattle.scene_model.specs.declared.edit.Inverse.{Inverse};

    ghost Value = { List Inverse };

    ghost view = { λ e. e.0.items };
}
