use crate::link::Link;
use crate::waiting::Waiting;

// What a phone has on the radio interface: nothing, the wait for the security of a connection, or a
// connection (TS 36.331 5.3, TS 33.401 7.2.8.1.1).
#[derive(Drop)]
pub(crate) enum Radio {
    Idle,
    Connecting(Waiting),
    Connected(Link),
}
