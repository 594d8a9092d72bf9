//! NAS security of one phone as a machine of lawful histories: contexts and COUNTs.
#![tactic(auto)]

ghost use Rattle.std.specs.Prelude.{◌≡◌, ℕ, Bool, List};
ghost use Rattle.trace_nas.specs.Heard.{fits};
ghost use Rattle.trace_nas.specs.InTurn.{ChangesSeen, ContextsFollow, CountsRise};
ghost use Rattle.trace_nas.specs.Nas.{NasMove, NasNet, NasSight, moved};
ghost use Rattle.trace_rules.specs.History.{History};

/// What a lawful history shows of NAS has COUNTs that go up in each direction under each KASME, whichever taps there are and however many
/// messages go unseen. So no COUNT is used twice, and each MAC is that of some context and COUNT.
pub fn counts_go_up()
    ensures { (kasmes : List (List ℕ)) (covers : NasSight → Bool) (bound left : ℕ) (start : NasNet) (moves : List NasMove) (capture : List NasSight) →
        History moved (fits kasmes) covers bound left start moves capture →
        CountsRise (fits kasmes) start.next capture }
{}

/// If each Security Mode Command and each Complete is covered, each message is under the context in use: a Complete under that of the last
/// Command, and any other message under that of the last Complete.
pub fn contexts_follow()
    ensures { (kasmes : List (List ℕ)) (covers : NasSight → Bool) (bound left : ℕ) (start : NasNet) (moves : List NasMove) (capture : List NasSight) →
        ChangesSeen covers →
        History moved (fits kasmes) covers bound left start moves capture →
        ContextsFollow (fits kasmes) start.using start.offered capture }
{}
