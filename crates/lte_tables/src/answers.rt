// The lines of the answers.
ghost use Rattle.std.specs.Prelude.{◌≡◌};
ghost use Rattle.lte_events.specs.declared.answers.Answer.{Answer};
ghost use Rattle.lte_tables.specs.Answers.{IsAnswer, answer_lines};

/// The lines of the answers of actors and of the network; each answer has one.
pub fn answer_lines() -> &'static str
    ensures lines { result.now ≡ answer_lines }
    ensures all { (answer : Answer) → IsAnswer answer }
{
    "\
answer 0 done 0
answer 1 NoContext 0
answer 2 WrongKsi 2 held=0 got=0
answer 3 CapsMismatch 4 own=0000 got=0000
answer 4 AlgUnsupported 1 algs=02
answer 5 MacFails 12 count=0 wanted=00000000 got=00000000
answer 6 CountSpent 0
answer 7 SmcOpen 0
answer 8 NoAlgorithm 0
answer 9 BadRecord 2 fault=1 place=0
answer 10 Short 0
answer 11 BadHeader 1 octet=00
answer 13 WrongKind 1 kind=00
answer 20 NotConnected 0
answer 21 NotAddressed 0
answer 22 NothingToResend 0
answer 23 AlreadyConnected 0
answer 30 NoUe 0
answer 31 Stale 8 outstanding=0 got=0
answer 32 OldConnection 8 held=0 got=0
answer 33 NotActive 0
answer 34 UnknownCell 0
answer 35 NoPathSwitch 0
answer 36 AttemptOpen 4 number=0
answer 37 NoAttempt 0
answer 38 CommandSent 0
answer 39 Repeated 8 seen=0 got=0
answer 40 PrepFull 0
answer 41 NotReady 0
answer 42 NumberSpent 0
answer 43 NoTrigger 0
answer 44 NoSmc 0
answer 50 NoRecord 0
answer 51 Sent 0 record=0
answer 52 RepeatedRoot 0 row=0
"
}
