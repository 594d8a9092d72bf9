// The records in the bag.
ghost use Rattle.std.specs.Prelude.{◌≡◌, ℕ, List, map, option_map, slice_get};
ghost use Rattle.std.specs.List.{position_from};
ghost use Rattle.lte_events.specs.declared.classes.Class.{Class};
ghost use Rattle.net_bag.specs.Bag.{first_sent};
ghost use Rattle.lte_machine.specs.Ciphers.{annex_b};
ghost use Rattle.lte_machine.specs.Machines.{Kept, machine_in_octets};
ghost use Rattle.lte_machine.specs.World.{is_sent};
ghost use Rattle.store_laws.specs.Records.{view_of};

/// The bag finds a record as the network does: the first one of the interface with these octets, on NAS
/// from the second octet on (`injected`); and a record by its number (`delivered`).
pub fn records_are_found()
    ensures injected { (sent : List Kept) (class : Class) (octets : List ℕ) →
        first_sent (map view_of sent) class octets
        ≡ position_from (is_sent (machine_in_octets annex_b) class octets) 0 sent }
    ensures delivered { (sent : List Kept) (i : ℕ) →
        slice_get (map view_of sent) i ≡ option_map view_of (slice_get sent i) }
{}
