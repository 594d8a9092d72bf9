ghost use Rattle.std.specs.Prelude.{◌≡◌, ◌≢◌, ◌<◌, ◌≤◌, ◌^◌, ℕ, length, IfSome, None};
ghost use Rattle.std.specs.Fmt.{decimal};
ghost use Rattle.std.specs.Net.Addr.{ipv4_octets};
ghost use Rattle.std.specs.Net.Socket.{v4_ip, v4_port};
ghost use Rattle.edge_io.specs.PortLine.{port_line};
ghost use Rattle.edge_io.specs.Opening.{loopback};

use arrayvec::ArrayVec;
use itoa::Buffer;
use std::net::{Ipv4Addr, SocketAddrV4};

/// The greatest number of octets of the line of a port.
pub(crate) const LINE: usize = 6;

/// The line of a port.
pub(crate) fn port_line(number: u16) -> ArrayVec<u8, LINE>
    ensures { result.items ≡ port_line number }
{
    let mut digits = Buffer::new();
    let mut line = ArrayVec::new();
    line.try_extend_from_slice(digits.format(number).as_bytes())
        .unwrap();
    line.push(b'\n');
    line
}

/// 127.0.0.1 at this port.
pub(crate) fn on_loopback(port: u16) -> SocketAddrV4
    ensures host { ipv4_octets (v4_ip result) ≡ loopback }
    ensures port { v4_port result ≡ port }
{
    SocketAddrV4::new(Ipv4Addr::LOCALHOST, port)
}

/// The number of a port, where these are its digits.
pub(crate) fn port_number(digits: &[u8]) -> Option<u16>
    ensures number { IfSome result (λ number. digits.now ≡ decimal number) }
    ensures none { result ≡ None → (number : ℕ) → number < 2 ^ 16 → digits.now ≢ decimal number }
{
    let Ok(text) = str::from_utf8(digits) else {
        return None;
    };
    let Ok(number) = text.parse::<u16>() else {
        return None;
    };
    let mut buffer = Buffer::new();
    if buffer.format(number).as_bytes() != digits {
        return None;
    }
    Some(number)
}
