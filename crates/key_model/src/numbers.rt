// The least number with a remainder.

ghost use Rattle.std.specs.Prelude.{◌≡◌, ◌≢◌, ℕ, ◌+◌, ◌-◌, ◌%◌, ◌<◌, ◌≤◌, ◌↔◌};
ghost use Rattle.key_model.specs.Chain.{ncc_of};
ghost use Rattle.key_model.specs.Least.{least, IsLeast, after_steps};
ghost use Rattle.key_model.specs.HandoverTable.{phone_number};
ghost use Rattle.key_model.specs.HandoverLines.{steps_to};

/// `least` is at or above its lower bound and has its remainder, and no lesser number does. No other
/// number is so, and it is fewer than w above the bound.
pub fn least_is_least()
    ensures least { (low x w : ℕ) → x < w → IsLeast low x w (least low x w) }
    ensures only { (low x w n : ℕ) → x < w → IsLeast low x w n → n ≡ least low x w }
    ensures near { (low x w : ℕ) → x < w → least low x w < low + w }
{}

/// Steps of one from the lower bound until the remainder fits reach `least`: the first number that
/// fits is it, and w steps are enough.
pub fn steps_reach_least()
    ensures first { (low x w d : ℕ) → x < w → (low + d) % w ≡ x →
        ((k : ℕ) → k < d → (low + k) % w ≢ x) → low + d ≡ least low x w }
    ensures enough { (low x w : ℕ) → x < w → after_steps w low x w ≡ least low x w }
{}

/// A number n at or above the lower bound is the least with its remainder exactly where it is fewer
/// than w above: so far a receiver takes the COUNT that was sent.
pub fn least_in_window()
    ensures { (low n w : ℕ) → 0 < w → low ≤ n → (least low (n % w) w ≡ n) ↔ (n - low < w) }
{}

/// Fewer than eight ahead agree, eight or more differ: from the NCC of a number i at or above its own
/// number p a phone reaches i exactly where i is fewer than eight above p. It makes seven NH steps at
/// the most (TS 33.401 7.2.8.4.4).
pub fn eight_steps()
    ensures agree { (p i : ℕ) → p ≤ i → (phone_number p (ncc_of i) ≡ i) ↔ (i - p < 8) }
    ensures few { (own ncc : ℕ) → ncc < 8 → steps_to own ncc < 8 }
{}
