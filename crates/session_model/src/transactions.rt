//! The laws of transactions, each the contract of a function with an empty body.
ghost use Rattle.session_model.specs.Txn.{BeganOn, KeepsBegin, LeadsBackAndForth, begun};
ghost use Rattle.scene_model.specs.Scene.{Scene};

/// A transaction that has begun on a scene remains one of that scene after each edit that is not
/// refused.
pub fn transactions_keep_their_begin()
    ensures begun { (s : Scene) → BeganOn s (begun s) }
    ensures applied { KeepsBegin }
{}

/// The inverses of a transaction, from last to first, restore the valid scene on which it began,
/// including places and the next edge number; its edits then give the working scene again.
pub fn transactions_lead_back_and_forth()
    ensures { LeadsBackAndForth }
{}
