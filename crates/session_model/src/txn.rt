//! A transaction, and its result.
ghost use Rattle.std.specs.Prelude.{◌≡◌, IfOk, OnOk, OnErr};
ghost use Rattle.scene_model.specs.Edits.{IsDirected, IsEdited};
ghost use Rattle.scene_model.specs.declared.fault.SceneFault.{SceneFault};

use scene_model::{Edit, Edits, Inverse, Inverses, SceneFault};
use scene_store::Scene;
use std::alloc::{AllocError, Global};
use std::marker::Model;

/// A working scene with the edits that led to it and their inverses, both in the order of the
/// edits.
#[derive(Drop)]
pub struct Txn {
    working: Scene,
    back: Vec<Inverse>,
    forth: Vec<Edit>,
}

/// The result of a transaction: its working scene, and both lists in the order of the edits.
#[derive(Drop)]
pub struct TxnParts {
    pub scene: Scene,
    /// The inverses of the edits.
    pub back: Inverses,
    /// The edits.
    pub forth: Edits,
}

impl Model for Txn {
    ghost use Rattle.session_model.specs.Txn.{Transaction};

    ghost Value = { Transaction };

    ghost view = { λ t. record { working = t.working; back = t.back.items; forth = t.forth.items } };
}

impl Txn {
    ghost use Rattle.session_model.specs.Txn.{applied, begun};

    /// A transaction without edits on a copy of the scene. The only error is out of memory.
    pub fn begin(alloc: Global, scene: &Scene) -> Result<Txn, AllocError>
        ensures { IfOk result (λ t. t ≡ begun scene.now) }
    {
        Ok(Txn {
            working: scene.copy()?,
            back: Vec::new(alloc),
            forth: Vec::new(alloc),
        })
    }

    /// Applies an edit to the working scene, and keeps it and its inverse. A pin that it adds has a
    /// direction.
    ///
    /// A refusal comes before any memory is taken. A refusal or out of memory leaves everything as
    /// it was.
    pub fn apply(&mut self, edit: &Edit) -> Result<(), SceneFault>
        requires { IsDirected edit.now }
        ensures edited { IsEdited edit.now self.old.working self.new.working result }
        ensures ok { OnOk result (self.new ≡ applied edit.now self.old) }
        ensures err { OnErr result (self.new ≡ self.old) }
    {
        if let Some(fault) = self.working.refusal(edit) {
            return Err(fault);
        }
        let inverse = self.working.inverse(edit).map_err(no_memory)?;
        self.back.reserve(1).map_err(no_memory)?;
        self.forth.reserve(1).map_err(no_memory)?;
        self.working.change(edit).map_err(no_memory)?;
        // There is room, so neither push fails.
        let _ = self.back.push(inverse);
        let _ = self.forth.push(*edit);
        Ok(())
    }

    /// The working scene.
    pub fn working(&self) -> &Scene
        ensures { result.now ≡ self.now.working }
    {
        &self.working
    }

    /// The result of the transaction. Takes no memory.
    pub fn into_parts(self) -> TxnParts
        ensures scene { result.scene ≡ self.working }
        ensures back { result.back ≡ self.back }
        ensures forth { result.forth ≡ self.forth }
    {
        let Txn {
            working,
            back,
            forth,
        } = self;
        TxnParts {
            scene: working,
            back: Inverses(back),
            forth: Edits(forth),
        }
    }
}

fn no_memory(_error: AllocError) -> SceneFault
    ensures { result ≡ SceneFault.Memory }
{
    SceneFault::Memory
}
