//! Sends flow along a way that a search has found.

ghost use Rattle.std.specs.Prelude.{◌≡◌, ◌<◌, pos, ◌<ℤ◌, ◌≤ℤ◌, length};
ghost use Rattle.separation_solve.specs.Reach.{IsReach, IsWay, start_of, step_at};

use crate::network::Network;
use crate::reach::Reach;

impl Network<'_> {
    ghost use Rattle.separation_solve.specs.Network.{IsSound, KeepsBundle, total_size};
    ghost use Rattle.separation_solve.specs.Push.{IsSent, KeepsRest, TakesAmount};

    /// Sends the greatest possible flow from the start to the step's node, which takes it.
    pub fn push(&mut self, reach: &Reach, target: usize)
        requires sound { IsSound self.old }
        requires way { IsWay self.old (start_of reach.now) reach.now target }
        ensures sound { IsSound self.new }
        ensures less { total_size self.new.excess.items <ℤ total_size self.old.excess.items }
        ensures bundle { KeepsBundle self.old self.new }
        ensures places { self.new.places ≡ self.old.places }
    {
        let amount = self.sendable(reach, target);
        self.send(reach, target, amount);
        let start = reach.steps[0].node;
        self.excess[start] += amount;
        let end = reach.steps[target].node;
        if end != self.wall() {
            self.excess[end] -= amount;
        }
    }

    /// The greatest flow that can go from the start to the step's node, and stay there.
    fn sendable(&self, reach: &Reach, target: usize) -> i128
        requires sound { IsSound self.now }
        requires way { IsWay self.now (start_of reach.now) reach.now target }
        ensures some { pos 0 <ℤ result }
        ensures capacity { result ≤ℤ (step_at reach.now.steps.items target).capacity }
        ensures taken { TakesAmount self.now (step_at reach.now.steps.items target).node result }
    {
        let step = reach.steps[target];
        if step.node == self.wall() {
            step.capacity
        } else {
            step.capacity.min(self.excess[step.node])
        }
    }

    /// Sends the flow along the way from the start to the step's node.
    fn send(&mut self, reach: &Reach, target: usize, amount: i128)
        requires sound { IsSound self.old }
        requires reach { IsReach self.old (start_of reach.now) reach.now }
        requires target { target < length reach.now.steps.items }
        requires some { pos 0 <ℤ amount }
        requires capacity { amount ≤ℤ (step_at reach.now.steps.items target).capacity }
        ensures sent { IsSent self.old reach.now target 0 amount self.new.flow.items }
        ensures rest { KeepsRest self.old self.new }
    {
        let mut at = target;
        while let Some(via) = reach.steps[at].via {
            let link = self.links[via.link];
            if link.from == reach.steps[at].node {
                self.flow[via.link] -= amount;
            } else {
                self.flow[via.link] += amount;
            }
            at = via.parent;
        }
    }
}
