use crate::Row;
use annex_a_keys::Derived;
use rec_base::Use;

/// What shows a coincidence: two keys, or two uses of keys, that are the same only by chance.
#[derive(Clone, Copy, PartialEq, Eq)]
pub enum Proof {
    /// A row has the octets of a derivation and another origin.
    Rows(Row, Derived),
    /// A derived row has these octets, which are those of a root.
    RootIsRow(Row, [u8; 32]),
    /// A record was accepted under another use of a key than it was sealed under: the sender's, none
    /// where nobody sent the record, and the receiver's.
    Tuples(Option<Use>, Use),
}
