// The first record with given octets: by the index, or else among the records that came since.
ghost use Rattle.std.specs.Prelude.{◌≡◌, ◌<◌, length, slice_get, Some, IfSome};
ghost use Rattle.std.specs.Option.{option_map};
ghost use Rattle.net_bag.specs.Bag as spec;
ghost use Rattle.net_bag.specs.Bag.{IsIndexOf, IsFirstBefore};

use crate::chains::Chains;
use crate::classes::{digest, same_class, told_in};
use crate::records::Records;
use lte_events::Class;

// The number of the first record of this interface with these octets.
pub(crate) fn first_sent(
    index: &Chains,
    records: &Records,
    class: &Class,
    octets: &[u8],
) -> Option<u32>
    requires { IsIndexOf index.now records.now.records }
    ensures { result ≡ spec.first_sent records.now.records class.now octets.now }
{
    if let Some(number) = first_indexed(index, records, class, octets) {
        return Some(number);
    }
    for number in index.len()..records.len() {
        if is_sent(records, number, class, octets) {
            return Some(number as u32);
        }
    }
    None
}

// The same, among the records of the index: along the chain of their value.
fn first_indexed(index: &Chains, records: &Records, class: &Class, octets: &[u8]) -> Option<u32>
    requires { IsIndexOf index.now records.now.records }
    ensures { IsFirstBefore records.now.records class.now octets.now (length index.now) result }
{
    let mut candidate = index.first(&digest(class, octets));
    while let Some(number) = candidate {
        if is_sent(records, number as usize, class, octets) {
            return Some(number);
        }
        candidate = index.next(number);
    }
    None
}

// Whether a record of this interface has these octets.
fn is_sent(records: &Records, number: usize, class: &Class, octets: &[u8]) -> bool
    requires { number < length records.now.records }
    ensures { option_map (spec.is_sent class.now octets.now) (slice_get records.now.records number) ≡ Some result }
{
    let own = records.to(number).class();
    let same = told_in(class, octets) == told_in(class, records.octets(number));
    same_class(class, &own) && same
}
