//! Searches, breadth first, for a way on which flow can go.

ghost use Rattle.std.specs.Prelude.{◌≡◌, ◌↔◌, ℕ, ◌+◌, ◌<◌, ◌≤◌, pos, ◌<ℤ◌, IsTrue, IfOk, OnOk, MatchOption, IsSome, Some, None, [], replicate, length};
ghost use Rattle.separation_model.specs.Bundle.{int_at};
ghost use Rattle.separation_solve.specs.Network.{IsSound, IsTightAt, items_of};
ghost use Rattle.separation_solve.specs.Reach.{AddsLeads, IsFollowing, IsLedTo, IsBlock, IsNoLead, IsReach, IsStep, IsTable, IsWay, KeepsSteps, TakesFlow, found_at, start_of, step_at};

use crate::network::Network;
use bumpalo::Bump;
use std::alloc::AllocError;

/// How a step was reached: over a link, from an earlier step.
#[derive(Clone, Copy)]
pub struct Via {
    pub parent: usize,
    pub link: usize,
}

/// A node that was reached.
#[derive(Clone, Copy)]
pub struct Step {
    pub node: usize,
    /// None at the start.
    pub via: Option<Via>,
    /// How far it is to the right of the start.
    pub offset: i64,
    /// The greatest flow that can go there from the start.
    pub capacity: i128,
}

/// Nodes to which flow can go from the first one: forward over a tight link, or back over a link
/// with flow.
#[derive(Drop)]
pub struct Reach<'a> {
    pub steps: Vec<Step, &'a Bump>,
    /// Each node's step.
    pub found: Vec<Option<usize>, &'a Bump>,
}

impl<'a> Reach<'a> {
    ghost use Rattle.separation_solve.specs.declared.network.Network.{Network};

    /// No steps yet, with room for a step of each of the nodes.
    pub fn new(bump: &'a Bump, nodes: usize) -> Result<Reach<'a>, AllocError>
        ensures { IfOk result (IsTable nodes) }
    {
        Ok(Reach {
            steps: Vec::with_capacity(bump, nodes)?,
            found: vec![in bump; None; nodes]?,
        })
    }

    /// Looks, breadth first, for a node that takes flow from the start, and returns the index of
    /// its step. If no node that can be reached takes any, it returns `None`, and the steps are a
    /// block.
    pub fn search(&mut self, network: &Network, start: usize) -> Result<Option<usize>, AllocError>
        requires sound { IsSound network.now }
        requires item { start < items_of network.now }
        requires short { int_at network.now.excess.items start <ℤ pos 0 }
        requires table { IsTable (items_of network.now + 1) self.old }
        ensures { IfOk result (λ target. MatchOption target
            (IsBlock network.now (start_of self.new) self.new)
            (IsWay network.now (start_of self.new) self.new)) }
    {
        self.begin(network, start)?;
        let mut next = 0;
        while next < self.steps.len() {
            if network.takes_flow(self.steps[next].node) {
                return Ok(Some(next));
            }
            self.extend(network, next)?;
            next += 1;
        }
        Ok(None)
    }

    /// Removes all earlier steps, and begins at the start.
    fn begin(&mut self, network: &Network, start: usize) -> Result<(), AllocError>
        requires sound { IsSound network.now }
        requires item { start < items_of network.now }
        requires short { int_at network.now.excess.items start <ℤ pos 0 }
        requires table { IsTable (items_of network.now + 1) self.old }
        ensures { OnOk result (IsReach network.now start self.new) }
    {
        self.clear();
        self.steps.push(Step {
            node: start,
            via: None,
            offset: 0,
            capacity: -network.excess[start],
        })?;
        self.found[start] = Some(0);
        Ok(())
    }

    /// Removes all steps, in the time that it took to add them.
    fn clear(&mut self)
        requires { IsTable (length self.old.found.items) self.old }
        ensures steps { self.new.steps.items ≡ [] }
        ensures found { self.new.found.items ≡ replicate (length self.old.found.items) None }
    {
        for index in 0..self.steps.len() {
            let node = self.steps[index].node;
            self.found[node] = None;
        }
        self.steps.clear();
    }

    /// Adds the nodes to which flow can go from the step's node.
    fn extend(&mut self, network: &Network, parent: usize) -> Result<(), AllocError>
        requires sound { IsSound network.now }
        requires reach { IsReach network.now (start_of self.old) self.old }
        requires parent { parent < length self.old.steps.items }
        ensures reach { OnOk result (IsReach network.now (start_of self.old) self.new) }
        ensures keeps { OnOk result (KeepsSteps self.old self.new) }
        ensures adds { OnOk result
            (AddsLeads network.now (step_at self.old.steps.items parent).node self.new) }
    {
        let step = self.steps[parent];
        for link in &network.tight[step.node] {
            if let Some(next) = network.lead(*link, parent, step) {
                self.add(next)?;
            }
        }
        Ok(())
    }

    /// Adds the step, unless its node was reached before.
    fn add(&mut self, step: Step) -> Result<(), AllocError>
        requires { step.node < length self.old.found.items }
        ensures reach { OnOk result ((n : Network) → IsReach n (start_of self.old) self.old →
            IsFollowing n self.old step → IsReach n (start_of self.old) self.new) }
        ensures keeps { OnOk result (KeepsSteps self.old self.new) }
        ensures added { OnOk result (IsSome (found_at self.new.found.items step.node)) }
    {
        if self.found[step.node].is_none() {
            let index = self.steps.len();
            self.steps.push(step)?;
            self.found[step.node] = Some(index);
        }
        Ok(())
    }
}

impl Network<'_> {
    /// Whether flow may end at the node: the wall, or an item with an excess.
    fn takes_flow(&self, node: usize) -> bool
        requires sound { IsSound self.now }
        requires node { node ≤ items_of self.now }
        ensures { IsTrue result ↔ TakesFlow self.now node }
    {
        node == self.wall() || self.excess[node] > 0
    }

    /// The step over the tight link from `step`, which is at the index `parent`, if flow can go
    /// that way.
    fn lead(&self, index: usize, parent: usize, step: Step) -> Option<Step>
        requires sound { IsSound self.now }
        requires link { IsTightAt self.now.places.items self.now.links.items index }
        requires step { (start : ℕ) × IsStep self.now start step }
        ensures { MatchOption result (IsNoLead self.now index step.node)
            (IsLedTo self.now index parent step) }
    {
        let link = self.links[index];
        let via = Some(Via {
            parent,
            link: index,
        });
        if link.from == step.node {
            Some(Step {
                node: link.to,
                via,
                offset: step.offset + link.gap,
                capacity: step.capacity,
            })
        } else if link.to == step.node && self.flow[index] > 0 {
            Some(Step {
                node: link.from,
                via,
                offset: step.offset - link.gap,
                capacity: step.capacity.min(self.flow[index]),
            })
        } else {
            None
        }
    }
}
