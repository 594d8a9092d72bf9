// The calls of the program and the turns of the machine in octets.
ghost use Rattle.std.specs.Prelude.{◌≡◌, ℕ, List, map, Option, Some};
ghost use Rattle.lte_events.specs.declared.inputs.PhoneIn.{PhoneIn};
ghost use Rattle.lte_events.specs.declared.inputs.StationIn.{StationIn};
ghost use Rattle.lte_events.specs.declared.inputs.CoreIn.{CoreIn};
ghost use Rattle.lte_events.specs.declared.lines.Who.{Who};
ghost use Rattle.lte_machine.specs.Calls.{phone_input, station_input, core_input, use_in, record_kept, actor_out, phone_call, station_call, core_call, line_of_reply, line_out};
ghost use Rattle.lte_machine.specs.Ciphers.{annex_b};
ghost use Rattle.lte_machine.specs.Machines.{Kept, machine_in_octets};
ghost use Rattle.lte_machine.specs.Reply.{Reply};
ghost use Rattle.lte_machine.specs.StationState.{Station};
ghost use Rattle.lte_machine.specs.World.{World, uses_in, phone_turn, turn_of, core_turn, put_station, line_of, sent_line};

/// A turn of an actor in the machine in octets is its call: the actor is afterwards as the call leaves
/// it, whatever the world around it and the record that came; a station that does not stand takes no
/// turn.
pub fn turns_are_calls()
    ensures phone { (w : World (List ℕ) ℕ Kept) (i : PhoneIn) (came : Option Kept) →
        (phone_turn (machine_in_octets annex_b) w (phone_input i) came).0.phone ≡ (phone_call w.phone i).0 }
    ensures station { (w : World (List ℕ) ℕ Kept) (id : ℕ) (i : StationIn) (came : Option Kept) (s : Station (List ℕ) ℕ) →
        (turn_of (machine_in_octets annex_b) w id (station_input i) came (Some s)).0.stations
        ≡ put_station id (station_call s i).0 w.stations }
    ensures core { (w : World (List ℕ) ℕ Kept) (i : CoreIn) (came : Option Kept) →
        (core_turn (machine_in_octets annex_b) w (core_input i) came).0.core ≡ (core_call w.core i).0 }
{}

/// What the network keeps of a step is what its reply says: the record sent, with its address, octets and
/// integrity use; the uses of keys; and the line, where the record has this number.
pub fn replies_are_kept()
    ensures record_sent { (r : Reply (List ℕ) ℕ) →
        (machine_in_octets annex_b).keep r.sent ≡ record_kept (actor_out r) }
    ensures uses { (r : Reply (List ℕ) ℕ) → uses_in r.sent ≡ map use_in (actor_out r).used }
    ensures line { (w : World (List ℕ) ℕ Kept) (who : Who) (r : Reply (List ℕ) ℕ) →
        line_out (line_of (machine_in_octets annex_b) w who r)
        ≡ line_of_reply w.events who (sent_line (machine_in_octets annex_b) w (record_kept (actor_out r))) (actor_out r) }
{}
