// Maps that grow.
ghost use Rattle.std.specs.Prelude.{◌≡◌, ◌+◌, ◌<◌, ◌≤◌, is_some, if◌then◌else◌, IfErr, IfOk, IsOk, OnErr, OnOk, None, Some};
ghost use Rattle.indexmap.specs.IndexMap.{get, hasher_of, index_map_len, insert_entry, spare, IsUnchanged, IsUnique, Updates};
ghost use Rattle.growth.specs.Growth.{WasRefused};

use indexmap::IndexMap;
use std::alloc::AllocFailed;
use std::hash::Hash;

/// Puts a pair into a map. A key that is there keeps its place, and its old value comes back; a new key goes last. Where memory
/// runs out the pair comes back.
pub fn insert<K: Eq + Hash + Drop, V: Drop>(
    map: &mut IndexMap<K, V>,
    key: K,
    value: V,
) -> Result<Option<V>, AllocFailed<(K, V)>>
    ensures old { IfOk result (λ old. old ≡ get K.eq map.old key) }
    ensures updates { OnOk result (Updates K.eq map.old map.new key (Some value)) }
    ensures entries { OnOk result (map.new.entries ≡ insert_entry K.eq map.old.entries key value) }
    ensures len { IfOk result (λ old. index_map_len map.new ≡ index_map_len map.old + (if is_some old then 0 else 1)) }
    ensures value_returned { IfErr result (λ y. y.value ≡ (key, value)) }
    ensures err { OnErr result (IsUnchanged map.old map.new) }
    ensures absent { OnErr result (get K.eq map.old key ≡ None) }
    ensures succeeds { 0 < spare map.old → IsOk result }
    ensures spare { spare map.old ≤ spare map.new + 1 }
    ensures hasher { hasher_of map.new ≡ hasher_of map.old }
    ensures unique { IsUnique K.eq map.new }
    ensures refused { OnErr result WasRefused }
{
    map.insert(key, value)
}
