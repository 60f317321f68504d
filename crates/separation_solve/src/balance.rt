//! Pushes flow until each item is balanced, or a block is found that is free to move.

ghost use Rattle.std.specs.Prelude.{◌≡◌, ◌+◌, ◌<◌, pos, ◌≤ℤ◌, ◌<ℤ◌, IfOk, All, MatchOption, length};
ghost use Rattle.std.specs.Bool.{MatchBool};
ghost use Rattle.separation_model.specs.Bundle.{int_at};

use crate::network::Network;
use crate::reach::Reach;
use std::alloc::AllocError;

impl Network<'_> {
    ghost use Rattle.separation_solve.specs.Network.{IsSameBundle, IsSound, items_of, upright_places, total_size};
    ghost use Rattle.separation_solve.specs.Reach.{IsBlock, IsTable, start_of};

    /// Pushes flow until each item is balanced, or until it finds a block that is pulled to the
    /// right and free to move there, which `reach` then is. Returns whether there is a block.
    pub fn balance(&mut self, reach: &mut Reach) -> Result<bool, AllocError>
        requires sound { IsSound self.old }
        requires table { IsTable (items_of self.old + 1) reach.old }
        ensures sound { IsSound self.new }
        ensures same { IsSameBundle self.old self.new }
        ensures places { upright_places self.new ≡ upright_places self.old }
        ensures table { IfOk result (λ found. IsTable (items_of self.new + 1) reach.new) }
        ensures found { IfOk result (λ found. MatchBool found
            (IsBlock self.new (start_of reach.new) reach.new)
            (All (λ z. z ≡ pos 0) self.new.excess.items)) }
    {
        self.sweep();
        // Now what is pulled to the left.
        self.mirror();
        self.sweep();
        while let Some(start) = self.next_start() {
            match reach.search(self, start)? {
                Some(target) => self.push(reach, target),
                None => return Ok(true),
            }
        }
        Ok(false)
    }

    /// An item that is pulled to the right, after left and right are exchanged if necessary.
    fn next_start(&mut self) -> Option<usize>
        requires { IsSound self.old }
        ensures sound { IsSound self.new }
        ensures same { IsSameBundle self.old self.new }
        ensures places { upright_places self.new ≡ upright_places self.old }
        ensures size { total_size self.new.excess.items ≡ total_size self.old.excess.items }
        ensures start { MatchOption result (All (λ z. z ≡ pos 0) self.new.excess.items)
            (λ start. (start < items_of self.new) × (int_at self.new.excess.items start <ℤ pos 0)) }
    {
        let start = self.first_deficit();
        if start.is_some() {
            return start;
        }
        self.mirror();
        self.first_deficit()
    }

    /// The first item with a deficit, which is pulled to the right, in the order in which rules go
    /// forward.
    fn first_deficit(&self) -> Option<usize>
        ensures { MatchOption result (All (λ z. pos 0 ≤ℤ z) self.now.excess.items)
            (λ start. (start < length self.now.excess.items)
            × (int_at self.now.excess.items start <ℤ pos 0)) }
    {
        if self.mirrored {
            self.excess.iter().rposition(|excess| *excess < 0)
        } else {
            self.excess.iter().position(|excess| *excess < 0)
        }
    }
}
