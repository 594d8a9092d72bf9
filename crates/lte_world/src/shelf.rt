// A list with room for more.
ghost use Rattle.growth.specs.Growth.{Refused};
ghost use Rattle.std.specs.Prelude.{◌≡◌, ◌+◌, ◌-◌, ◌<◌, ◌≤◌, [], ◌∷◌, ◌++◌, length, OnOk, OnErr};

use std::alloc::{AllocError, Global};
use std::marker::Model;

// A list, and for how many items more it has room: a contract sees both.
#[derive(Drop)]
pub(crate) struct Shelf<T> {
    items: Vec<T>,
}

impl<T> Model for Shelf<T> {
    ghost use Rattle.std.specs.Prelude.{◌-◌, vec_len, vec_capacity};
    ghost use Rattle.lte_world.specs.Shelved.{Shelved};

    ghost Value = { Shelved T };

    ghost view = { λ s. record { items = s.items.items; spare = vec_capacity s.items - vec_len s.items } };
}

impl<T: Drop> Shelf<T> {
    // No items. It takes no memory.
    pub fn new(alloc: Global) -> Shelf<T>
        ensures items { result.items ≡ [] }
        ensures spare { result.spare ≡ 0 }
    {
        Shelf {
            items: Vec::new(alloc),
        }
    }

    // Makes room for so many items more. Where memory runs out nothing changes: there was not room for so many, and std refused it.
    pub fn reserve(&mut self, more: usize) -> Result<(), AllocError>
        ensures items { self.new.items ≡ self.old.items }
        ensures lacking { OnErr result (self.old.spare < more) }
        ensures refused { OnErr result (Refused (length self.old.items + more)) }
        ensures room { OnOk result (more ≤ self.new.spare) }
        ensures spare { self.old.spare ≤ self.new.spare }
        ensures err { OnErr result (self.new ≡ self.old) }
    {
        growth::reserve(&mut self.items, more)
    }

    // Puts an item at the end.
    pub fn put(&mut self, item: T)
        requires { 0 < self.old.spare }
        ensures items { self.new.items ≡ self.old.items ++ item ∷ [] }
        ensures spare { self.old.spare ≤ self.new.spare + 1 }
    {
        self.items.push_reserved(item);
    }

    // The items, in order.
    pub fn as_slice(&self) -> &[T]
        ensures { result.now ≡ self.now.items }
    {
        self.items.as_slice()
    }
}
