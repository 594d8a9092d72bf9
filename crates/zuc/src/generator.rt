// The shift register of ZUC and its function F (TS 35.222 3).
ghost use Rattle.std.specs.Prelude.{◌≡◌, ◌+◌, ◌<◌, ◌%◌, ◌*◌, ◌^◌};
ghost use Rattle.zuc.specs.State.{after, clocked, crossed, f_word, feedback, high, l1, l2, loaded, loaded_stage, low, mixed_for, mixing, never_zero, next, sixteen_words, stage, state_at, word, x0, x1, x2, x3};

use crate::s_boxes::boxes;

// The constants of key loading, d0 to d15.
static LOADING: [u32; 16] = [
    0x44d7, 0x26bc, 0x626b, 0x135e, 0x5789, 0x35e2, 0x7135, 0x09af, 0x4d78, 0x2f13, 0x6bc4, 0x1af1,
    0x5e26, 0x3c4d, 0x789a, 0x47ac,
];

// The stages in a ring, of which each call says where the first one stands, and the registers R1 and R2.
#[derive(Drop)]
pub(crate) struct Generator {
    stages: [u32; 16],
    r1: u32,
    r2: u32,
}

impl Generator {
    // The state that the key and the IV load, with the first stage at place 0.
    pub(crate) fn load(key: &[u8; 16], iv: &[u8; 16]) -> Generator
        ensures { state_at 0 result ≡ loaded key.now iv.now }
    {
        let stages = [
            loaded_stage(key, iv, 0),
            loaded_stage(key, iv, 1),
            loaded_stage(key, iv, 2),
            loaded_stage(key, iv, 3),
            loaded_stage(key, iv, 4),
            loaded_stage(key, iv, 5),
            loaded_stage(key, iv, 6),
            loaded_stage(key, iv, 7),
            loaded_stage(key, iv, 8),
            loaded_stage(key, iv, 9),
            loaded_stage(key, iv, 10),
            loaded_stage(key, iv, 11),
            loaded_stage(key, iv, 12),
            loaded_stage(key, iv, 13),
            loaded_stage(key, iv, 14),
            loaded_stage(key, iv, 15),
        ];
        Generator {
            stages,
            r1: 0,
            r2: 0,
        }
    }

    // Stage `i`.
    #[inline(always)]
    #[tactic(auto, unfolding(crate::specs::State::state_at))]
    fn stage(&self, place: usize, i: usize) -> u32
        requires from { place < 16 }
        requires below { i < 16 }
        ensures { result ≡ stage (state_at place self.now) i }
    {
        self.stages[(place + i) % 16]
    }

    // X0.
    #[inline(always)]
    fn x0(&self, place: usize) -> u32
        requires { place < 16 }
        ensures { result ≡ x0 (state_at place self.now) }
    {
        joined(high(self.stage(place, 15)), low(self.stage(place, 14)))
    }

    // X1.
    #[inline(always)]
    fn x1(&self, place: usize) -> u32
        requires { place < 16 }
        ensures { result ≡ x1 (state_at place self.now) }
    {
        joined(low(self.stage(place, 11)), high(self.stage(place, 9)))
    }

    // X2.
    #[inline(always)]
    fn x2(&self, place: usize) -> u32
        requires { place < 16 }
        ensures { result ≡ x2 (state_at place self.now) }
    {
        joined(low(self.stage(place, 7)), high(self.stage(place, 5)))
    }

    // X3.
    #[inline(always)]
    fn x3(&self, place: usize) -> u32
        requires { place < 16 }
        ensures { result ≡ x3 (state_at place self.now) }
    {
        joined(low(self.stage(place, 2)), high(self.stage(place, 0)))
    }

    // W.
    #[inline(always)]
    fn f_word(&self, place: usize) -> u32
        requires { place < 16 }
        ensures { result ≡ f_word (state_at place self.now) }
    {
        (self.x0(place) ^ self.r1).wrapping_add(self.r2)
    }

    // The sum that the shift register feeds back, with `u`.
    #[inline(always)]
    fn feedback(&self, place: usize, u: u32) -> u64
        requires { place < 16 }
        ensures value { result ≡ feedback u (state_at place self.now) }
        ensures fits { result < 2 ^ 54 }
    {
        let s15 = self.stage(place, 15) as u64;
        let s13 = self.stage(place, 13) as u64;
        let s10 = self.stage(place, 10) as u64;
        let s4 = self.stage(place, 4) as u64;
        let s0 = self.stage(place, 0) as u64;
        (1 << 15) * s15 + (1 << 17) * s13 + (1 << 21) * s10 + (1 << 20) * s4 + 257 * s0 + u as u64
    }

    // One clock. The new stage takes the place of the first one.
    #[inline(always)]
    fn clock(&mut self, place: usize, u: u32)
        requires { place < 16 }
        ensures { state_at ((place + 1) % 16) self.new ≡ clocked u (state_at place self.old) }
    {
        let w1 = self.r1.wrapping_add(self.x1(place));
        let w2 = self.r2 ^ self.x2(place);
        let fed = never_zero(self.feedback(place, u));
        self.r1 = boxes(l1(crossed(w1, w2)));
        self.r2 = boxes(l2(crossed(w2, w1)));
        self.stages[place] = fed;
    }

    // A clock in initialisation mode.
    #[inline(always)]
    #[tactic(auto, unfolding(crate::specs::State::mixing))]
    fn mix(&mut self, place: usize)
        requires { place < 16 }
        ensures { state_at ((place + 1) % 16) self.new ≡ mixing (state_at place self.old) }
    {
        let u = self.f_word(place) >> 1;
        self.clock(place, u);
    }

    // A clock in working mode, and the word behind it.
    #[inline(always)]
    fn next_word(&mut self, place: usize) -> u32
        requires { place < 16 }
        ensures state { state_at ((place + 1) % 16) self.new ≡ next (state_at place self.old) }
        ensures value { result ≡ word (next (state_at place self.old)) }
    {
        self.clock(place, 0);
        let place = (place + 1) % 16;
        self.f_word(place) ^ self.x3(place)
    }

    // Sixteen clocks in initialisation mode. Written out, so that each place is a constant.
    pub(crate) fn mix_sixteen(&mut self)
        ensures { state_at 0 self.new ≡ mixed_for (state_at 0 self.old) 16 }
    {
        self.mix(0);
        self.mix(1);
        self.mix(2);
        self.mix(3);
        self.mix(4);
        self.mix(5);
        self.mix(6);
        self.mix(7);
        self.mix(8);
        self.mix(9);
        self.mix(10);
        self.mix(11);
        self.mix(12);
        self.mix(13);
        self.mix(14);
        self.mix(15);
    }

    // Sixteen clocks in working mode, and their words. Written out, so that each place is a constant.
    pub(crate) fn next_words(&mut self) -> [u32; 16]
        ensures state { state_at 0 self.new ≡ after (state_at 0 self.old) 16 }
        ensures value { result ≡ sixteen_words (state_at 0 self.old) }
    {
        [
            self.next_word(0),
            self.next_word(1),
            self.next_word(2),
            self.next_word(3),
            self.next_word(4),
            self.next_word(5),
            self.next_word(6),
            self.next_word(7),
            self.next_word(8),
            self.next_word(9),
            self.next_word(10),
            self.next_word(11),
            self.next_word(12),
            self.next_word(13),
            self.next_word(14),
            self.next_word(15),
        ]
    }
}

// Stage `i` as it is loaded.
#[inline(always)]
fn loaded_stage(key: &[u8; 16], iv: &[u8; 16], i: usize) -> u32
    requires { i < 16 }
    ensures { result ≡ loaded_stage key.now iv.now i }
{
    key[i] as u32 * (1 << 23) + LOADING[i] * (1 << 8) + iv[i] as u32
}

// The higher 16 bits of a stage of 31 bits.
#[inline(always)]
fn high(v: u32) -> u32
    ensures { result ≡ high v }
{
    (v >> 15) % (1 << 16)
}

// The lower 16 bits of a stage.
#[inline(always)]
fn low(v: u32) -> u32
    ensures { result ≡ low v }
{
    v % (1 << 16)
}

// Two halves of 16 bits as a word, the first one highest.
#[inline(always)]
fn joined(a: u32, b: u32) -> u32
    requires first { a < 2 ^ 16 }
    requires second { b < 2 ^ 16 }
    ensures { result ≡ a * 2 ^ 16 + b }
{
    a * (1 << 16) + b
}

// The lower half of one word and the higher half of another.
#[inline(always)]
fn crossed(v: u32, w: u32) -> u32
    ensures { result ≡ crossed v w }
{
    joined(v % (1 << 16), w >> 16)
}

// L1.
#[inline(always)]
#[tactic(auto, unfolding(crate::specs::State::l1))]
fn l1(x: u32) -> u32
    ensures { result ≡ l1 x }
{
    x ^ x.rotate_left(2) ^ x.rotate_left(10) ^ x.rotate_left(18) ^ x.rotate_left(24)
}

// L2.
#[inline(always)]
#[tactic(auto, unfolding(crate::specs::State::l2))]
fn l2(x: u32) -> u32
    ensures { result ≡ l2 x }
{
    x ^ x.rotate_left(8) ^ x.rotate_left(14) ^ x.rotate_left(22) ^ x.rotate_left(30)
}

// A number modulo 2^31 - 1, which stands for 0. Since 2^31 is 1 there, the halves are added, twice.
#[inline(always)]
fn never_zero(n: u64) -> u32
    requires { n < 2 ^ 54 }
    ensures { result ≡ never_zero n }
{
    let once = n % (1 << 31) + (n >> 31);
    let twice = once % (1 << 31) + (once >> 31);
    if twice == 0 {
        0x7fff_ffff
    } else {
        twice as u32
    }
}
