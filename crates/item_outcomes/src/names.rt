// The items of the probe by their names.
ghost use Rattle.std.specs.Prelude.{◌≡◌};
ghost use Rattle.item_outcomes.specs.Probe.{down, down_arrives, is_among};

/// The name of the first item of the probe: all items of a variant have lower names.
pub const PROBE: u32 = 1_000_000;

/// A user packet up.
pub const UP: u32 = PROBE;

/// Its delivery.
pub const UP_ARRIVES: u32 = PROBE + 1;

/// A NAS text up.
pub const NAS_UP: u32 = PROBE + 18;

/// Its delivery.
pub const NAS_UP_ARRIVES: u32 = PROBE + 19;

/// A NAS text down.
pub const NAS_DOWN: u32 = PROBE + 20;

/// Its delivery.
pub const NAS_DOWN_ARRIVES: u32 = PROBE + 21;

/// The timer of the serving station.
pub const CANCEL: u32 = PROBE + 22;

/// A handover begins.
pub const BEGIN: u32 = PROBE + 25;

/// It is commanded.
pub const COMMAND: u32 = PROBE + 28;

/// The phone leaves its connection.
pub const IDLE: u32 = PROBE + 34;

/// It asks for service.
pub const SERVICE: u32 = PROBE + 35;

/// The core sets up its context.
pub const CONNECT: u32 = PROBE + 37;

/// The phone takes the key of that connection.
pub const SECURED: u32 = PROBE + 39;

/// A user packet behind that.
pub const AGAIN: u32 = PROBE + 41;

/// Its delivery.
pub const AGAIN_ARRIVES: u32 = PROBE + 42;

/// Phone and core authenticate anew.
pub const RENEW: u32 = PROBE + 43;

/// The core begins Security Mode.
pub const COMMAND_ANEW: u32 = PROBE + 44;

/// The phone leaves its connection once more.
pub const IDLE_ANEW: u32 = PROBE + 47;

/// It asks for service.
pub const SERVICE_ANEW: u32 = PROBE + 48;

/// The core sets up its context.
pub const CONNECT_ANEW: u32 = PROBE + 50;

/// The phone takes the key of that connection.
pub const SECURED_ANEW: u32 = PROBE + 52;

/// A user packet behind that.
pub const ANEW: u32 = PROBE + 54;

/// Its delivery.
pub const ANEW_ARRIVES: u32 = PROBE + 55;

/// A user packet down from this station.
pub fn down(station: u8) -> u32
    ensures { result ≡ down station }
{
    PROBE + 2 + 2 * u32::from(station)
}

/// Its delivery.
pub fn down_arrives(station: u8) -> u32
    ensures { result ≡ down_arrives station }
{
    PROBE + 3 + 2 * u32::from(station)
}

/// Whether a name is among these.
pub(crate) fn is_among(names: &[u32], name: u32) -> bool
    ensures { result ≡ is_among names.now name }
{
    names.iter().any(|n| *n == name)
}
