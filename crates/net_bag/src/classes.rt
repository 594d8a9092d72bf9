// What of a record's octets tells it from others, and the value by which it is looked up.
ghost use Rattle.std.specs.Prelude.{◌≡◌};
ghost use Rattle.lte_events.specs.Class as interfaces;
ghost use Rattle.net_bag.specs.Class as spec;

use lte_events::Class;
use sha2::{Digest, Sha256};

// Whether two interfaces are one.
pub(crate) fn same_class(a: &Class, b: &Class) -> bool
    ensures { result ≡ interfaces.same_class a.now b.now }
{
    *a == *b
}

// The octets that tell a record from others of its interface: on NAS those from the second on.
pub(crate) fn told_in<'a>(class: &Class, octets: &'a [u8]) -> &'a [u8]
    ensures { result.now ≡ interfaces.told_in class.now octets.now }
{
    match class {
        Class::Nas => octets.split_at(octets.len().min(1)).1,
        Class::Air | Class::S1 | Class::X2 => octets,
    }
}

// One octet for each interface.
fn class_octet(class: &Class) -> u8
    ensures { result ≡ spec.class_octet class.now }
{
    match class {
        Class::Nas => 0,
        Class::Air => 1,
        Class::S1 => 2,
        Class::X2 => 3,
    }
}

// The value by which a record of this interface is looked up.
#[tactic(auto, unfolding(crate::specs::Class::digest))]
pub(crate) fn digest(class: &Class, octets: &[u8]) -> [u8; 32]
    ensures { result ≡ spec.digest class.now octets.now }
{
    let class_octet = [class_octet(class)];
    let mut hasher = Sha256::new();
    hasher.update(&class_octet);
    hasher.update(told_in(class, octets));
    hasher.finalize()
}
