ghost use Rattle.growth.specs.Growth.{WasRefused};
ghost use Rattle.std.specs.Prelude.{◌≡◌, ◌≢◌, ◌↔◌, ℕ, List, false, Some, None, [], IfSome, IsTrue};
ghost use Rattle.edge_io.specs.Cause.{NoFault, NoCountFell, Rose};
ghost use Rattle.edge_io.specs.Used.{UsedAsSource, UsedAsSink};
ghost use Rattle.lte_properties.specs.Headline.{Headline};
ghost use Rattle.scenario_file.specs.Draws.{generated_setup, generated};
ghost use Rattle.hub_drive.specs.Driven.{AllStopped};
ghost use Rattle.lte_sec_app.specs.Command.{named};
ghost use Rattle.lte_sec_app.specs.Drive.{DriveAt, DriveIsComplete};
ghost use Rattle.lte_sec_app.specs.Generated.{gen_output, WritingIsComplete};
ghost use Rattle.lte_sec_app.specs.Text.{text_output, HoldsOf};
ghost use Rattle.lte_sec_app.specs.Run.{CommandAt, CommandIsComplete, WritesAt};
ghost use Rattle.lte_sec_app.specs.Scenario.{HasHops, HasRecovery, HoldsWhereRun};
ghost use Rattle.lte_sec_app.specs.Serve.{ServeAt, ServeIsComplete};
ghost use Rattle.edge_io.specs.declared.peers.Role.{Role};
ghost use Rattle.lte_sec_app.specs.declared.command.TextCommand.{TextCommand};

use crate::command::{Command, command_of};
use crate::drive::drive;
use crate::generated::report_gen;
use crate::serve::serve;
use crate::status::Status;
use crate::text::answer_text;
use edge_io::{Peers, Port, Sink, Source};
use std::alloc::Global;

/// The greatest number of octets of an input.
pub const LIMIT: usize = 16_777_216;

/// Runs the program with the words after its name: its input is read, its output written, and the
/// answer is its status.
///
/// - `ladder` reads a ladder text and writes a line for each of its lines.
/// - `run` reads a scenario and writes its report: a line for each step, and all keys with their holders.
/// - `fleet` reads a scenario of many phones and writes the reports of all of them.
/// - `two` reads a scenario of two cores and writes its report, with the core that acted.
/// - `audit` reads a scenario and writes which stations can derive which of its keys.
/// - `drive` reads a scenario, starts a peer for each of its actors, tells each what its actor is told, and writes the
///   report of `run`; if a reply differs from the local actor's, it ends with a line that has both.
/// - `serve` and a role opens the port and serves the actor of that role there: `phone`, `station` and its
///   number 0 to 7, or `core`. It reads no input, takes no memory, and writes only the line for octets that are
///   not a frame.
/// - `gen` with a number of steps and a seed reads nothing, runs the scenario of the seed and writes its summary.
///
/// For other words the answer is `BadWords`, and every object stays as it was.
#[tactic(auto, using(crate::proofs::Reports::has_hops, crate::proofs::Reports::has_recovery))]
pub fn run<R: Source, W: Sink, P: Peers, L: Port>(
    alloc: Global,
    words: &[String],
    input: &mut R,
    out: &mut W,
    peers: &mut P,
    port: &mut L,
) -> Status
    requires input_ready { IsTrue (R.told input.old).ready }
    requires out_ready { IsTrue (W.told out.old).ready }
    requires port_closed { (L.told port.old).ready ≡ false }
    requires no_peer { IfSome (P.told peers.old) (λ told. told.roles ≡ []) }

    // Words that are no command leave all as it was.
    ensures bad_words { (result ≡ Status.BadWords) ↔ (named words.now ≡ None) }
    ensures bad_words_input { result ≡ Status.BadWords → input.new ≡ input.old }
    ensures bad_words_out { result ≡ Status.BadWords → out.new ≡ out.old }

    // What a command writes for the text that it reads, and the cause of each of its statuses: where memory ran out nothing
    // of a refusal was written, since a refusal takes none; and the headline of the scenario, at the statuses at which
    // one was read. `ladder` writes keys, `run` the report of the written machine's run
    // over key terms, printed in values, `fleet` that of each phone, `two` that with two cores, and
    // `audit` who can derive which key of the run.
    ensures text { (command : TextCommand)
        → named words.now ≡ Some (Command.Text command)
        → CommandAt (text_output command) result (R.told input.old) (R.told input.new) (W.told out.old)
        (W.told out.new) }
    ensures text_complete { (command : TextCommand)
        → named words.now ≡ Some (Command.Text command)
        → CommandIsComplete (text_output command) result (R.told input.old) (R.told input.new) (W.told out.old)
        (W.told out.new) }
    ensures no_refusal { (command : TextCommand)
        → named words.now ≡ Some (Command.Text command)
        → (octets : List ℕ)
        → (R.told input.old).left ≡ Some octets
        → result ≡ Status.Memory
        → (text_output command octets).ends ≡ Status.Refused
        → out.new ≡ out.old }
    ensures headline { (command : TextCommand) → named words.now ≡ Some (Command.Text command) → HoldsOf command result (R.told input.old) }

    // For `run`: what leads back to one key behind any number of the scenario's steps, and which of its keys no other
    // station can compute.
    ensures recovers { named words.now ≡ Some (Command.Text TextCommand.Run) → HoldsWhereRun HasRecovery result (R.told input.old) }
    ensures hops { named words.now ≡ Some (Command.Text TextCommand.Run) → HoldsWhereRun HasHops result (R.told input.old) }

    // What `drive` writes and what it asks of the peers, at each of its statuses: the report of `run`, and the calls of the
    // plan of the scenario; all peers that were started are stopped; and the headline of the scenario.
    ensures drive { named words.now ≡ Some Command.Drive → DriveAt result (R.told input.old) (R.told input.new) (W.told out.old) (W.told out.new) (P.told peers.old) (P.told peers.new) }
    ensures drive_complete { named words.now ≡ Some Command.Drive
        → DriveIsComplete result (R.told input.old) (R.told input.new) (W.told out.old) (W.told out.new)
        (P.told peers.old) (P.faults peers.old) (P.faults peers.new) }
    ensures drive_no_refusal { named words.now ≡ Some Command.Drive
        → (octets : List ℕ)
        → (R.told input.old).left ≡ Some octets
        → result ≡ Status.Memory
        → (text_output TextCommand.Run octets).ends ≡ Status.Refused
        → out.new ≡ out.old }
    ensures drive_headline { named words.now ≡ Some Command.Drive → HoldsOf TextCommand.Run result (R.told input.old) }
    ensures stopped { IfSome (P.told peers.new) AllStopped }
    ensures peer_cause { named words.now ≡ Some Command.Drive → result ≡ Status.PeerFault → Rose (P.faults peers.old) (P.faults peers.new) }
    ensures no_peer_fault { result ≢ Status.PeerFault → P.faults peers.new ≡ P.faults peers.old }

    // What `serve` reads and writes at the port, and the cause of each of its statuses. It leaves the input as it was. No
    // piece that the port is given is empty.
    ensures serve { (role : Role) → named words.now ≡ Some (Command.Serve role) → ServeAt role result (L.told port.old) (L.told port.new) (W.told out.old) (W.told out.new) }
    ensures serve_complete { (role : Role) → named words.now ≡ Some (Command.Serve role) → ServeIsComplete role result (L.told port.old) (L.told port.new) }
    ensures serve_input { (role : Role) → named words.now ≡ Some (Command.Serve role) → input.new ≡ input.old }
    ensures no_port_fault { result ≢ Status.PeerFault → NoFault (L.told port.old) (L.told port.new) }
    ensures port_counts { NoCountFell (L.told port.old) (L.told port.new) }
    ensures port_pieces { (L.told port.new).pieces ≡ (L.told port.old).pieces }

    // What `gen` writes: the summary of the written machine's run of the scenario that the seed gives; the input stays as it
    // was, and the headline holds of this scenario too.
    ensures generated { (steps seed : ℕ) → named words.now ≡ Some (Command.Gen steps seed) → WritesAt (gen_output steps seed) result (W.told out.old) (W.told out.new) }
    ensures generated_complete { (steps seed : ℕ) → named words.now ≡ Some (Command.Gen steps seed) → WritingIsComplete (gen_output steps seed) result (W.told out.old) (W.told out.new) }
    ensures generated_input { (steps seed : ℕ) → named words.now ≡ Some (Command.Gen steps seed) → input.new ≡ input.old }
    ensures generated_headline { (steps seed : ℕ) → named words.now ≡ Some (Command.Gen steps seed) → Headline generated_setup (generated steps seed) }

    // Where memory is wanted it was refused: by std, or, of `drive`, at the start of a peer.
    ensures memory { result ≡ Status.Memory → WasRefused }

    // An input that was not read within the limit has no output.
    ensures unread { result ≡ Status.ReadFault → out.new ≡ out.old }
    ensures too_long { result ≡ Status.TooLong → out.new ≡ out.old }

    // Each other status has met no fault, want of memory among them.
    ensures no_read_fault { result ≢ Status.ReadFault → NoFault (R.told input.old) (R.told input.new) }
    ensures no_write_fault { result ≢ Status.WriteFault → NoFault (W.told out.old) (W.told out.new) }

    // What stays of each object.
    ensures input { UsedAsSource (R.told input.old) (R.told input.new) }
    ensures out { UsedAsSink (W.told out.old) (W.told out.new) }
    ensures peers { named words.now ≢ Some Command.Drive → peers.new ≡ peers.old }
    ensures unread_peers { result ≡ Status.ReadFault → peers.new ≡ peers.old }
    ensures too_long_peers { result ≡ Status.TooLong → peers.new ≡ peers.old }
    ensures refused_peers { result ≡ Status.Refused → peers.new ≡ peers.old }
    ensures port { ((role : Role) → named words.now ≢ Some (Command.Serve role)) → port.new ≡ port.old }
{
    match command_of(words) {
        None => Status::BadWords,
        Some(Command::Text(command)) => answer_text(alloc, command, input, out),
        Some(Command::Drive) => drive(alloc, input, peers, out),
        Some(Command::Serve(role)) => serve(role, out, port),
        Some(Command::Gen(steps, seed)) => report_gen(alloc, steps, seed, out),
    }
}
