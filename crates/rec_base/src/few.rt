// Lists of a bounded length, which take no memory.
ghost use Rattle.std.specs.Prelude.{◌≡◌, ◌+◌, ◌≤◌, ◌<◌, ◌↔◌, [], ◌∷◌, ◌++◌, length, slice_index_or, ℕ, IsOk, OnOk, OnErr, IfErr};
ghost use Rattle.std.specs.List.{AllZip};

use arrayvec::ArrayVec;
use std::alloc::AllocError;
use std::marker::Model;

/// A list of at most `N` items, which lies in the value itself. A contract sees it as the list.
#[derive(PartialEq, Eq, Drop)]
pub struct Few<T, const N: usize> {
    items: ArrayVec<T, N>,
}

impl<T, const N: usize> Model for Few<T, N> {
    ghost use Rattle.std.specs.Prelude.{List, ◌≤◌, length};

    ghost Value = { List T };

    ghost view = { λ f. f.items.items };

    ghost invariant = { λ f. length f.items.items ≤ N };

    ghost inverse = { λ items. record { items = record { items = items } } };
}

impl<T: Default, const N: usize> Few<T, N> {
    /// No item.
    pub fn new() -> Self
        ensures { result ≡ [] }
    {
        Few {
            items: ArrayVec::new(),
        }
    }
}

impl<T: Drop, const N: usize> Few<T, N> {
    /// Appends an item, or hands it back where the list has `N` items.
    pub fn try_push(&mut self, item: T) -> Result<(), T>
        ensures variant { IsOk result ↔ (length self.old < N) }
        ensures ok { OnOk result (self.new ≡ self.old ++ item ∷ []) }
        ensures err { OnErr result (self.new ≡ self.old) }
        ensures handed_back { IfErr result (λ given. given ≡ item) }
    {
        if self.items.is_full() {
            return Err(item);
        }
        self.push(item);
        Ok(())
    }

    /// Appends an item, for which there is room.
    pub fn push(&mut self, item: T)
        requires { length self.old < N }
        ensures { self.new ≡ self.old ++ item ∷ [] }
    {
        self.items.push(item);
    }

    /// Appends items, for which there is room.
    pub fn append(&mut self, items: &[T])
    where
        T: Copy,
        requires { length self.old + length items.now ≤ N }
        ensures { self.new ≡ self.old ++ items.now }
    {
        let _ = self.items.try_extend_from_slice(items);
    }

    /// Drops all items.
    pub fn clear(&mut self)
    where
        T: Default,
        ensures { self.new ≡ [] }
    {
        self.items.clear();
    }

    /// The items, in order.
    pub fn as_slice(&self) -> &[T]
        ensures value { result.now ≡ self.now }
        ensures within { length result.now ≤ N }
    {
        self.items.as_slice()
    }
}

impl<T: Default, const N: usize> Default for Few<T, N> {
    ghost is_default = { λ v. v ≡ [] };

    fn default() -> Few<T, N> {
        Few::new()
    }
}

impl<T: Default + Clone, const N: usize> Clone for Few<T, N> {
    ghost is_clone = { λ v w. AllZip T.is_clone v w };

    ghost is_infallible = { λ v. (i : ℕ) (d : T) → i < length v → T.is_infallible (slice_index_or v i d) };

    fn clone(&self) -> Result<Self, AllocError> {
        let items = self.items.clone()?;
        Ok(Few { items })
    }
}
