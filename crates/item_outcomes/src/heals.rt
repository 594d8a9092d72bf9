// What leads phone and station back to one key, by the lines of the probe.
ghost use Rattle.std.specs.Prelude.{◌≡◌};
ghost use Rattle.item_outcomes.specs.Heals.{heals_of, reconnects, restarts, serves_again, takes_one};
ghost use Rattle.item_outcomes.specs.Keys.{parted};

use crate::keys::is_made;
use crate::names::{AGAIN_ARRIVES, ANEW_ARRIVES, SECURED, SECURED_ANEW, is_among};
use crate::packets::{Fate, fate_of};
use item_lines::{Told, line_of};

/// What leads phone and station back to one key.
#[derive(Clone, Copy)]
pub enum Heals {
    /// A reconnection: seven events.
    Reconnection,
    /// An authentication and a reconnection: eleven events.
    Authentication,
    /// Neither of them.
    Nothing,
}

/// Whether the packet behind the probe's Service Request arrives.
pub fn serves_again(told: &[Told]) -> bool
    ensures { result ≡ serves_again told.now }
{
    fate_of(told, AGAIN_ARRIVES, b"again") == Fate::Arrives
}

// What heals, by these lines; `parted_at` has the items at which keys part.
pub(crate) fn heals_of(told: &[Told], parted_at: &[u32]) -> Heals
    requires { parted_at.now ≡ parted told.now }
    ensures { result ≡ heals_of told.now }
{
    if reconnects(told, parted_at) {
        Heals::Reconnection
    } else if restarts(told, parted_at) {
        Heals::Authentication
    } else {
        Heals::Nothing
    }
}

fn reconnects(told: &[Told], parted_at: &[u32]) -> bool
    requires { parted_at.now ≡ parted told.now }
    ensures { result ≡ reconnects told.now }
{
    takes_one(told, parted_at, SECURED) && serves_again(told)
}

fn restarts(told: &[Told], parted_at: &[u32]) -> bool
    requires { parted_at.now ≡ parted told.now }
    ensures { result ≡ restarts told.now }
{
    takes_one(told, parted_at, SECURED_ANEW)
        && fate_of(told, ANEW_ARRIVES, b"anew") == Fate::Arrives
}

// Whether the phone takes a key at this item, and not another one than the station there told.
fn takes_one(told: &[Told], parted_at: &[u32], name: u32) -> bool
    requires { parted_at.now ≡ parted told.now }
    ensures { result ≡ takes_one told.now name }
{
    is_made(line_of(name, told)) && !is_among(parted_at, name)
}
