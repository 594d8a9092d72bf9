// The shift register and the state machine of SNOW 3G (TS 35.216 3 and 4).
ghost use Rattle.std.specs.Prelude.{◌≡◌, ◌+◌, ◌<◌, ◌%◌};
ghost use Rattle.aes_core.specs.KeyExpansion.{key_word};
ghost use Rattle.aes_core.specs.Word.{word_number};
ghost use Rattle.snow3g.specs.State.{after, clocked, feedback, fsm_word, inverted, loaded, mixed_for, mixing, next, sixteen_words, stage, state_at, word};

use crate::alphas::{div_alpha, mul_alpha};
use crate::s1_box::s1;
use crate::s2_box::s2;

// The stages in a ring, of which each call says where the first one stands, and the registers R1 to R3.
#[derive(Drop)]
pub(crate) struct Generator {
    stages: [u32; 16],
    r1: u32,
    r2: u32,
    r3: u32,
}

impl Generator {
    // The state that the key and the words IV0 to IV3 load, with the first stage at place 0.
    pub(crate) fn load(key: &[u8; 16], iv: [u32; 4]) -> Generator
        ensures { state_at 0 result ≡ loaded key.now iv }
    {
        let k0 = key_word(key, 3);
        let k1 = key_word(key, 2);
        let k2 = key_word(key, 1);
        let k3 = key_word(key, 0);
        let stages = [
            inverted(k0),
            inverted(k1),
            inverted(k2),
            inverted(k3),
            k0,
            k1,
            k2,
            k3,
            inverted(k0),
            inverted(k1) ^ iv[3],
            inverted(k2) ^ iv[2],
            inverted(k3),
            k0 ^ iv[1],
            k1,
            k2,
            k3 ^ iv[0],
        ];
        Generator {
            stages,
            r1: 0,
            r2: 0,
            r3: 0,
        }
    }

    // Stage `i`.
    #[inline(always)]
    #[tactic(auto, unfolding(crate::specs::State::state_at))]
    fn stage(&self, place: usize, i: usize) -> u32
        requires from { place < 16 }
        requires below { i < 16 }
        ensures { result ≡ stage (state_at place self.now) i }
    {
        self.stages[(place + i) % 16]
    }

    // F.
    #[inline(always)]
    #[tactic(auto, unfolding(crate::specs::State::fsm_word))]
    fn fsm_word(&self, place: usize) -> u32
        requires { place < 16 }
        ensures { result ≡ fsm_word (state_at place self.now) }
    {
        self.stage(place, 15).wrapping_add(self.r1) ^ self.r2
    }

    // What the shift register feeds back.
    #[inline(always)]
    #[tactic(auto, unfolding(crate::specs::State::feedback))]
    fn feedback(&self, place: usize) -> u32
        requires { place < 16 }
        ensures { result ≡ feedback (state_at place self.now) }
    {
        let first = self.stage(place, 0);
        let eleventh = self.stage(place, 11);
        (first << 8)
            ^ mul_alpha(first)
            ^ self.stage(place, 2)
            ^ (eleventh >> 8)
            ^ div_alpha(eleventh)
    }

    // One clock. The new stage takes the place of the first one.
    #[inline(always)]
    fn clock(&mut self, place: usize, fed: u32)
        requires { place < 16 }
        ensures { state_at ((place + 1) % 16) self.new ≡ clocked fed (state_at place self.old) }
    {
        let r1 = self.r2.wrapping_add(self.r3 ^ self.stage(place, 5));
        self.r3 = s2(self.r2);
        self.r2 = s1(self.r1);
        self.r1 = r1;
        self.stages[place] = fed;
    }

    // A clock in initialisation mode.
    #[inline(always)]
    #[tactic(auto, unfolding(crate::specs::State::mixing))]
    fn mix(&mut self, place: usize)
        requires { place < 16 }
        ensures { state_at ((place + 1) % 16) self.new ≡ mixing (state_at place self.old) }
    {
        let fed = self.feedback(place) ^ self.fsm_word(place);
        self.clock(place, fed);
    }

    // A clock in keystream mode, and the word behind it.
    #[inline(always)]
    fn next_word(&mut self, place: usize) -> u32
        requires { place < 16 }
        ensures state { state_at ((place + 1) % 16) self.new ≡ next (state_at place self.old) }
        ensures value { result ≡ word (next (state_at place self.old)) }
    {
        let fed = self.feedback(place);
        self.clock(place, fed);
        let place = (place + 1) % 16;
        self.fsm_word(place) ^ self.stage(place, 0)
    }

    // Sixteen clocks in initialisation mode. Written out, so that each place is a constant.
    pub(crate) fn mix_sixteen(&mut self)
        ensures { state_at 0 self.new ≡ mixed_for (state_at 0 self.old) 16 }
    {
        self.mix(0);
        self.mix(1);
        self.mix(2);
        self.mix(3);
        self.mix(4);
        self.mix(5);
        self.mix(6);
        self.mix(7);
        self.mix(8);
        self.mix(9);
        self.mix(10);
        self.mix(11);
        self.mix(12);
        self.mix(13);
        self.mix(14);
        self.mix(15);
    }

    // Sixteen clocks in keystream mode, and their words. Written out, so that each place is a constant.
    pub(crate) fn next_words(&mut self) -> [u32; 16]
        ensures state { state_at 0 self.new ≡ after (state_at 0 self.old) 16 }
        ensures value { result ≡ sixteen_words (state_at 0 self.old) }
    {
        [
            self.next_word(0),
            self.next_word(1),
            self.next_word(2),
            self.next_word(3),
            self.next_word(4),
            self.next_word(5),
            self.next_word(6),
            self.next_word(7),
            self.next_word(8),
            self.next_word(9),
            self.next_word(10),
            self.next_word(11),
            self.next_word(12),
            self.next_word(13),
            self.next_word(14),
            self.next_word(15),
        ]
    }
}

// Word `i` of the key.
fn key_word(key: &[u8; 16], i: usize) -> u32
    requires { i < 4 }
    ensures { result ≡ word_number (key_word key.now i) }
{
    u32::from_be_bytes([key[4 * i], key[4 * i + 1], key[4 * i + 2], key[4 * i + 3]])
}

// The other bits of a word.
fn inverted(w: u32) -> u32
    ensures { result ≡ inverted w }
{
    w ^ 0xffff_ffff
}
