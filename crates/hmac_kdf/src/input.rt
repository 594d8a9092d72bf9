ghost use Rattle.std.specs.Prelude.{◌≡◌, ◌+◌, ◌≤◌, ◌++◌, length};
ghost use Rattle.arrayvec.specs.ArrayVec.{array_vec_len};
ghost use Rattle.hmac_kdf.specs.Kdf.{parameter, earfcn_octets, greatest_earfcn};

use arrayvec::ArrayVec;

/// The input of a derivation of TS 33.401 Annex A, beside the key.
#[derive(Clone, Copy, Debug, PartialEq, Eq)]
pub enum KdfInput {
    /// KeNB from KASME (A.3): the uplink NAS COUNT, in four octets.
    Kenb(u32),
    /// NH from KASME (A.4): the SYNC-input of 32 octets, which is the KeNB for the first NH and the
    /// NH before for each later one.
    Nh([u8; 32]),
    /// KeNB* from NH or KeNB (A.5): the target cell's PCI, in two octets, and EARFCN-DL, in two up to 65535 and in
    /// three above.
    Star(u16, u32),
    /// An algorithm key from KASME or KeNB (A.7): the algorithm type and identity, an octet each.
    Alg(u8, u8),
}

// What the unused places of a bounded list of derivations hold.
impl Default for KdfInput {
    ghost use Rattle.std.specs.Prelude.{◌≡◌};
    ghost use Rattle.hmac_kdf.specs.declared.input.KdfInput.TheVariants.{Kenb};

    ghost is_default = { λ v. v ≡ Kenb 0 };

    fn default() -> KdfInput {
        KdfInput::Kenb(0)
    }
}

impl KdfInput {
    ghost use Rattle.hmac_kdf.specs.Kdf.{kdf_string, IsKdfInput};

    /// The string S of TS 33.220 B.2, of at most 35 octets: FC, and then each parameter and its
    /// length. An EARFCN-DL is at most 262143.
    #[tactic(auto, unfolding(crate::specs::Kdf::kdf_string))]
    pub fn string(&self) -> ArrayVec<u8, 35>
        requires { IsKdfInput self.now }
        ensures { result.items ≡ kdf_string self.now }
    {
        let mut string = ArrayVec::new();
        match self {
            KdfInput::Kenb(count) => {
                string.push(0x11);
                push_parameter(&mut string, &count.to_be_bytes());
            }
            KdfInput::Nh(sync) => {
                string.push(0x12);
                push_parameter(&mut string, sync);
            }
            KdfInput::Star(pci, earfcn) => {
                string.push(0x13);
                push_parameter(&mut string, &pci.to_be_bytes());
                push_earfcn(&mut string, *earfcn);
            }
            KdfInput::Alg(kind, identity) => {
                string.push(0x15);
                push_parameter(&mut string, &[*kind]);
                push_parameter(&mut string, &[*identity]);
            }
        }
        string
    }
}

// Puts a parameter at the end of a string: its octets, and their number in two octets.
fn push_parameter(string: &mut ArrayVec<u8, 35>, octets: &[u8])
    requires { array_vec_len string.old + length octets.now + 2 ≤ 35 }
    ensures items { string.new.items ≡ string.old.items ++ parameter octets.now }
    ensures len { array_vec_len string.new ≡ array_vec_len string.old + length octets.now + 2 }
{
    string.try_extend_from_slice(octets).unwrap();
    string
        .try_extend_from_slice(&(octets.len() as u16).to_be_bytes())
        .unwrap();
}

// Puts an EARFCN-DL at the end of a string: in two octets up to 65535, in three above.
fn push_earfcn(string: &mut ArrayVec<u8, 35>, earfcn: u32)
    requires fits { earfcn ≤ greatest_earfcn }
    requires room { array_vec_len string.old + 5 ≤ 35 }
    ensures { string.new.items ≡ string.old.items ++ parameter (earfcn_octets earfcn) }
{
    if earfcn > 65535 {
        push_parameter(string, &earfcn.to_be_bytes()[1..]);
    } else {
        push_parameter(string, &(earfcn as u16).to_be_bytes());
    }
}
