// What holds of calls on peers.
ghost use Rattle.std.specs.Prelude.{◌≡◌, ℕ, ◌≤◌, Option, List, length, IfSome};
ghost use Rattle.std.specs.Option.{option_map};
ghost use Rattle.hub_drive.specs.Driven.{AllStopped};
ghost use Rattle.edge_io.specs.Peers.{PeersTold};
ghost use Rattle.hub_drive.specs.Acts.{Call};
ghost use Rattle.hub_drive.specs.Outside.{AllGave, HasStarted, all_done, stopped_below};
ghost use Rattle.hub_drive.specs.Peerwise.{Made};

/// Calls that were made, and brought what was to come, add the roles that they start and the octets that
/// they send, and take the octets that come, peer by peer.
pub fn calls_are_made_peer_by_peer()
    ensures { (calls : List Call) (told : PeersTold) → AllGave calls told → Made calls told (all_done calls told) }
{}

/// Behind a plan every peer that was started is stopped.
pub fn all_are_stopped()
    ensures { (count : ℕ) (last after : Option PeersTold) → HasStarted count last → after ≡ option_map (stopped_below count) last
        → IfSome after (λ t. length t.roles ≤ length t.peers) → IfSome after AllStopped }
{}
