// What the receiving rule of RLC AM finds of what was sent.
ghost use Rattle.std.specs.Prelude.{◌≡◌, ℕ, List, ◌+◌, ◌<◌, ◌≤◌, Ok, if◌then◌else◌, nat_le};
ghost use Rattle.rec_base.specs.declared.uses.Dir.{Dir};
ghost use Rattle.pdcp_guard.specs.Counts.{count_limit};
ghost use Rattle.pdu_guard.specs.Am.{am_count_of, last_before, window_of};
ghost use Rattle.pdu_guard.specs.Drb.{drb_pdu, values_of};
ghost use Rattle.pdu_guard.specs.declared.am.AmFate.TheVariants.{Discarded, Late, New};
ghost use Rattle.pdu_guard.specs.declared.drb.DrbKeys.{DrbKeys};

/// A PDU within the reordering window comes to the sender's COUNT. `first` is the least COUNT that was not handed on, and the next
/// one is at most a window above it, as the rule itself keeps it. A COUNT from `first` on and within a window of it is found, as new
/// from the next one on and else as late; one below `first` within a window is found to be discarded, unless it is that of a whole
/// HFN before the next one.
pub fn am_window()
    ensures kept { (keys : DrbKeys) (dir : Dir) (first next count : ℕ) (text : List ℕ)
        → first ≤ next → next ≤ first + window_of keys.numbers
        → first ≤ count → count < first + window_of keys.numbers → count < count_limit
        → am_count_of keys.numbers (last_before keys.numbers first) next (drb_pdu keys count dir text)
        ≡ Ok (record { count = count; fate = if nat_le next count then New else Late }) }
    ensures discarded { (keys : DrbKeys) (dir : Dir) (first next count : ℕ) (text : List ℕ)
        → first ≤ next → next ≤ first + window_of keys.numbers
        → count < first → first ≤ count + window_of keys.numbers → next < count + values_of keys.numbers → count < count_limit
        → am_count_of keys.numbers (last_before keys.numbers first) next (drb_pdu keys count dir text)
        ≡ Ok (record { count = count; fate = Discarded }) }
{}
