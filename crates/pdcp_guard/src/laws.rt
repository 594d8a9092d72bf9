// Laws of the PDUs of radio bearers.
ghost use Rattle.std.specs.Prelude.{◌≡◌, ℕ, ◌+◌, ◌-◌, ◌%◌, ◌<◌, ◌≤◌, All, AllPairs, Bool, List, length, map};
ghost use Rattle.key_model.specs.Least.{least};
ghost use Rattle.rec_base.specs.declared.bearers.Bearer.{Bearer};
ghost use Rattle.rec_base.specs.declared.uses.Dir.{Dir};
ghost use Rattle.pdcp_guard.specs.Counts.{count_limit};
ghost use Rattle.alg_choice.specs.declared.algs.Algs.{Algs};
ghost use Rattle.key_model.specs.Derivation.{map_derivation};
ghost use Rattle.key_model.specs.Reading.{Carries, Reading};
ghost use Rattle.pdcp_guard.specs.AsKeys.{AsKeys, as_derivations, as_keys_of, map_as_keys};
ghost use Rattle.pdcp_guard.specs.Counts.{BearerState, after_send, expects_next, send_count, skipped};
ghost use Rattle.pdcp_guard.specs.CountActs.{BearerAct, counts_sent};
ghost use Rattle.pdcp_guard.specs.Srb.{srb_opened, srb_opened_at, srb_sealed};
ghost use Rattle.pdcp_guard.specs.Drb.{drb_opened, drb_opened_at, drb_sealed};

/// A PDU of an SRB opens to its COUNT and text under the same keys, algorithms, bearer and direction,
/// and ciphered or not as it was made: where its COUNT is the one that the receiver expects, the least
/// with its sequence number, and so where the receiver's next COUNT is no more than 31 below.
pub fn srb_sealed_opens()
    ensures expected { (keys : AsKeys (List ℕ)) (cipher : Bool) (bearer : Bearer) (count next : ℕ) (dir : Dir) (text : List ℕ)
        → count < count_limit → least next (count % 32) 32 ≡ count
        → srb_opened keys cipher bearer next dir (srb_sealed keys cipher bearer count dir text) ≡ Ok (record { count = count; text = text }) }
    ensures near { (keys : AsKeys (List ℕ)) (cipher : Bool) (bearer : Bearer) (count next : ℕ) (dir : Dir) (text : List ℕ)
        → count < count_limit → next ≤ count → count - next < 32
        → srb_opened keys cipher bearer next dir (srb_sealed keys cipher bearer count dir text) ≡ Ok (record { count = count; text = text }) }
    ensures at_count { (keys : AsKeys (List ℕ)) (cipher : Bool) (bearer : Bearer) (count : ℕ) (dir : Dir) (text : List ℕ)
        → srb_opened_at keys cipher bearer count dir (srb_sealed keys cipher bearer count dir text) ≡ Ok (record { count = count; text = text }) }
    ensures length { (keys : AsKeys (List ℕ)) (cipher : Bool) (bearer : Bearer) (count : ℕ) (dir : Dir) (text : List ℕ)
        → length (srb_sealed keys cipher bearer count dir text) ≡ length text + 5 }
{}

/// A PDU of a DRB opens to its COUNT and text under the same keys, algorithms, bearer and direction:
/// where its COUNT is the one that the receiver expects, the least with its sequence number, and so
/// where the receiver's next COUNT is no more than 4,095 below.
pub fn drb_sealed_opens()
    ensures expected { (keys : AsKeys (List ℕ)) (bearer : Bearer) (count next : ℕ) (dir : Dir) (text : List ℕ)
        → count < count_limit → least next (count % 4096) 4096 ≡ count
        → drb_opened keys bearer next dir (drb_sealed keys bearer count dir text) ≡ Ok (record { count = count; text = text }) }
    ensures near { (keys : AsKeys (List ℕ)) (bearer : Bearer) (count next : ℕ) (dir : Dir) (text : List ℕ)
        → count < count_limit → next ≤ count → count - next < 4096
        → drb_opened keys bearer next dir (drb_sealed keys bearer count dir text) ≡ Ok (record { count = count; text = text }) }
    ensures at_count { (keys : AsKeys (List ℕ)) (bearer : Bearer) (count : ℕ) (dir : Dir) (text : List ℕ)
        → drb_opened_at keys bearer count dir (drb_sealed keys bearer count dir text) ≡ record { count = count; text = text } }
    ensures length { (keys : AsKeys (List ℕ)) (bearer : Bearer) (count : ℕ) (dir : Dir) (text : List ℕ)
        → length (drb_sealed keys bearer count dir text) ≡ length text + 2 }
{}

/// The COUNTs of sendings rise: the sending after one takes a greater COUNT, to leave COUNTs out takes none
/// back, and what is received changes none.
pub fn sending_counts_rise()
    ensures send { (b : BearerState) (first second : ℕ) → send_count b ≡ Ok first
        → send_count (after_send b (send_count b)) ≡ Ok second → first < second }
    ensures skip { (b : BearerState) (n : ℕ) → b.counts.send ≤ count_limit → b.counts.send ≤ skipped b.counts.send n }
    ensures receive { (b : BearerState) (count : ℕ) → (expects_next b count).counts.send ≡ b.counts.send }
{}

/// No COUNT is sent twice, whatever is done on a bearer between: over any acts on any bearer, each COUNT
/// sent is below all later ones, at or above the bearer's next COUNT at first, and below 2^32.
pub fn no_count_is_sent_twice()
    ensures rise { (b : BearerState) (acts : List BearerAct) → AllPairs (λ earlier later. earlier < later) (counts_sent b acts) }
    ensures from_next { (b : BearerState) (acts : List BearerAct)
        → All (λ count. (b.counts.send ≤ count) × (count < count_limit)) (counts_sent b acts) }
{}

/// The keys of a KeNB and their derivations are carried from one reading of keys to another.
pub fn as_keys_are_carried<K, C, L, D>()
    ensures keys { (r : Reading K C) (q : Reading L D) (f : K → L) (g : C → D) → Carries r q f g → (kenb : K) (algs : Algs)
        → map_as_keys f (as_keys_of r kenb algs) ≡ as_keys_of q (f kenb) algs }
    ensures derivations { (r : Reading K C) (q : Reading L D) (f : K → L) (g : C → D) → Carries r q f g → (kenb : K) (algs : Algs)
        → map (map_derivation f) (as_derivations r kenb algs) ≡ as_derivations q (f kenb) algs }
{}
