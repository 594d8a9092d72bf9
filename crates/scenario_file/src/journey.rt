// The draws of a generated scenario.
ghost use Rattle.std.specs.Prelude.{◌≡◌, ◌<◌, ◌≤◌};
ghost use Rattle.scenario_file.specs.Draws.{next, drawn, draws_on, text_of, target_of, turn_for, moved, turn_of, after};

use crate::turns::Turn;

// Knuth's generator of 64 bits.
const FACTOR: u64 = 6364136223846793005;

const SUMMAND: u64 = 1442695040888963407;

// Where the draws stand, and the phone.
#[derive(Clone, Copy)]
pub(crate) struct Journey {
    // The state of the draws.
    pub(crate) state: u64,
    // The station that serves the phone, 0 to 3.
    pub(crate) serving: u8,
    // Whether the answer to the path switch of the last change of station was left undelivered.
    pub(crate) unanswered: bool,
}

impl Journey {
    // The next turn.
    #[tactic(auto, unfolding(crate::specs::Draws::turn_of, crate::specs::Draws::after))]
    pub(crate) fn turn(&mut self) -> Turn
        ensures turn { result ≡ turn_of self.old }
        ensures journey { self.new ≡ after self.old }
    {
        let choice = self.draw(6);
        self.choose(choice)
    }

    #[tactic(auto, unfolding(crate::specs::Draws::turn_for))]
    fn choose(&mut self, choice: u64) -> Turn
        ensures turn { result ≡ turn_for choice self.old }
        ensures journey { self.new ≡ moved self.old result }
    {
        match choice {
            0 => Turn::Uplink(self.text()),
            1 => Turn::Downlink(self.serving, self.text()),
            2 => self.x2(true),
            3 => self.x2(self.unanswered),
            4 => self.s1(),
            _ => Turn::Within(self.serving),
        }
    }

    // A handover over X2 to another station.
    fn x2(&mut self, answered: bool) -> Turn
        ensures turn { result ≡ Turn.OverX2 self.old.serving (target_of self.old) answered }
        ensures journey { self.new ≡ moved self.old result }
    {
        let from = self.serving;
        let to = self.go_on(!answered);
        Turn::OverX2 { from, to, answered }
    }

    // A handover over S1 to another station.
    fn s1(&mut self) -> Turn
        ensures turn { result ≡ Turn.OverS1 self.old.serving (target_of self.old) }
        ensures journey { self.new ≡ moved self.old result }
    {
        let from = self.serving;
        let to = self.go_on(false);
        Turn::OverS1 { from, to }
    }

    // Lets another station serve the phone.
    fn go_on(&mut self, unanswered: bool) -> u8
        ensures to { result ≡ target_of self.old }
        ensures journey { self.new ≡ record { state = next self.old.state; serving = result; unanswered = unanswered } }
    {
        let to = self.target();
        self.serving = to;
        self.unanswered = unanswered;
        to
    }

    // The text of a packet.
    fn text(&mut self) -> [u8; 8]
        ensures text { result ≡ text_of self.old }
        ensures journey { self.new ≡ draws_on self.old }
    {
        self.draw(2);
        self.state.to_be_bytes()
    }

    // Another station than the one that serves.
    fn target(&mut self) -> u8
        ensures target { result ≡ target_of self.old }
        ensures journey { self.new ≡ draws_on self.old }
    {
        let draw = self.draw(3);
        ((u64::from(self.serving) + 1 + draw) % 4) as u8
    }

    // One draw: a number below `of`.
    #[tactic(auto, unfolding(crate::specs::Draws::next, crate::specs::Draws::drawn))]
    fn draw(&mut self, of: u64) -> u64
        requires { 0 < of }
        ensures drawn { result ≡ drawn of (next self.old.state) }
        ensures below { result < of }
        ensures journey { self.new ≡ draws_on self.old }
    {
        self.state = self.state.wrapping_mul(FACTOR).wrapping_add(SUMMAND);
        (self.state >> 33) % of
    }
}
