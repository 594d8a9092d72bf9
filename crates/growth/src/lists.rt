// Lists that grow.
ghost use Rattle.std.specs.Prelude.{◌≡◌, ◌+◌, ◌<◌, ◌≤◌, ◌++◌, ◌∷◌, [], length, is_ok, if◌then◌else◌, vec_len, vec_capacity, IfErr, IfOk, IsOk, OnErr, OnOk, replicate};
ghost use Rattle.std.specs.Iterator.{IsFinite, Drains};
ghost use Rattle.growth.specs.Growth.{Refused, WasRefused};

use std::alloc::{AllocError, AllocFailed, Global};

/// Makes room for so many items more.
pub fn reserve<T: Drop>(items: &mut Vec<T>, more: usize) -> Result<(), AllocError>
    ensures items { items.new.items ≡ items.old.items }
    ensures len { vec_len items.new ≡ vec_len items.old }
    ensures ok { OnOk result (vec_len items.new + more ≤ vec_capacity items.new) }
    ensures capacity { vec_capacity items.old ≤ vec_capacity items.new }
    ensures succeeds { vec_len items.old + more ≤ vec_capacity items.old → IsOk result }
    ensures full { OnErr result (vec_capacity items.old < vec_len items.old + more) }
    ensures err { OnErr result (vec_capacity items.new ≡ vec_capacity items.old) }
    ensures refused { OnErr result (Refused (vec_len items.old + more)) }
{
    items.reserve(more)
}

/// Puts an item at the end. Where memory runs out the item comes back.
pub fn push<T: Drop>(items: &mut Vec<T>, item: T) -> Result<(), AllocFailed<T>>
    ensures items { items.new.items ≡ (if is_ok result then items.old.items ++ item ∷ [] else items.old.items) }
    ensures len { vec_len items.new ≡ (if is_ok result then vec_len items.old + 1 else vec_len items.old) }
    ensures value_returned { IfErr result (λ y. y.value ≡ item) }
    ensures capacity { vec_capacity items.old ≤ vec_capacity items.new }
    ensures succeeds { vec_len items.old < vec_capacity items.old → IsOk result }
    ensures full { OnErr result (vec_capacity items.old ≤ vec_len items.old) }
    ensures refused { OnErr result (Refused (vec_len items.old + 1)) }
{
    items.push(item)
}

/// Puts copies of items at the end.
pub fn extend_from_slice<T: Copy>(items: &mut Vec<T>, more: &[T]) -> Result<(), AllocError>
    ensures items { items.new.items ≡ (if is_ok result then items.old.items ++ more.now else items.old.items) }
    ensures len { vec_len items.new ≡ (if is_ok result then vec_len items.old + length more.now else vec_len items.old) }
    ensures capacity { vec_capacity items.old ≤ vec_capacity items.new }
    ensures succeeds { vec_len items.old + length more.now ≤ vec_capacity items.old → IsOk result }
    ensures full { OnErr result (vec_capacity items.old < vec_len items.old + length more.now) }
    ensures refused { OnErr result (Refused (vec_len items.old + length more.now)) }
{
    items.extend_from_slice(more)
}

/// A list with room for so many items.
pub fn with_capacity<T: Drop>(alloc: Global, capacity: usize) -> Result<Vec<T>, AllocError>
    ensures items { IfOk result (λ items. items.items ≡ []) }
    ensures len { IfOk result (λ items. vec_len items ≡ 0) }
    ensures capacity { IfOk result (λ items. capacity ≤ vec_capacity items) }
    ensures refused { OnErr result (Refused capacity) }
{
    Vec::with_capacity(alloc, capacity)
}

/// A list of so many octets, all the same.
pub fn from_elem(alloc: Global, octet: u8, len: usize) -> Result<Vec<u8>, AllocError>
    ensures items { IfOk result (λ items. items.items ≡ replicate len octet) }
    ensures len { IfOk result (λ items. vec_len items ≡ len) }
    ensures refused { OnErr result (Refused len) }
{
    vec![in alloc; octet; len]
}

/// A list of copies of items.
pub fn from_slice<T: Copy>(alloc: Global, items: &[T]) -> Result<Vec<T>, AllocError>
    ensures items { IfOk result (λ copied. copied.items ≡ items.now) }
    ensures refused { OnErr result (Refused (length items.now)) }
{
    let mut copied = with_capacity(alloc, items.len())?;
    extend_from_slice(&mut copied, items)?;
    Ok(copied)
}

/// All items that an iterator gives.
pub fn collect<T: Drop, I: Iterator<Item = T> + Drop>(
    items: I,
    alloc: Global,
) -> Result<Vec<T>, AllocError>
    requires can { I.can_next items }
    requires finite { IsFinite (I.remaining items) }
    ensures ran { IfOk result (λ list. Drains I.next_gives items list.items) }
    ensures refused { OnErr result WasRefused }
{
    items.collect(alloc)
}
