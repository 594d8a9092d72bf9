ghost use Rattle.std.specs.Prelude.{◌≡◌, ◌≤◌, IfSome};
ghost use Rattle.role_wire.specs.Ranges.{IsRole};
ghost use Rattle.lte_sec_app.specs.Roles.{role_of, station_number};

use edge_io::Role;

/// The role that these words name, if they name one: `phone`, `station` and its number 0 to 7, `core`.
pub(crate) fn role_of(words: &[String]) -> Option<Role>
    ensures value { result ≡ role_of words.now }
    ensures within { IfSome result IsRole }
{
    match words {
        [word] if word.as_str() == "phone" => Some(Role::Phone),
        [word] if word.as_str() == "core" => Some(Role::Core),
        [word, number] if word.as_str() == "station" => {
            Some(Role::Station(station_number(number.as_bytes())?))
        }
        _ => None,
    }
}

// The number of a station, one digit.
fn station_number(digits: &[u8]) -> Option<u8>
    ensures value { result ≡ station_number digits.now }
    ensures within { IfSome result (λ number. number ≤ 7) }
{
    match digits {
        [octet @ b'0'..=b'7'] => Some(octet - b'0'),
        _ => None,
    }
}
