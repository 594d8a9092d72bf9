ghost use Rattle.std.specs.Prelude.{◌≡◌};
ghost use Rattle.edge_io.specs.Lines.{ends_line, has_octets};

// Whether these octets are whole lines, and not none.
pub(crate) fn ends_line(octets: &[u8]) -> bool
    ensures { result ≡ ends_line octets.now }
{
    match octets.last() {
        Some(octet) => *octet == b'\n',
        None => false,
    }
}

// Whether there are octets.
pub(crate) fn has_octets(octets: &[u8]) -> bool
    ensures { result ≡ has_octets octets.now }
{
    match octets {
        [] => false,
        [_, ..] => true,
    }
}
