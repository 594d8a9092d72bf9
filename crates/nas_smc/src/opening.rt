// Opening NAS messages under the keys of a context.
ghost use Rattle.std.specs.Prelude.{◌≡◌, ◌<◌, ◌≤◌, length};
ghost use Rattle.rec_base.specs.Lengths.{longest_record};
ghost use Rattle.key_model.specs.Least.{least};
ghost use Rattle.nas_count.specs.Estimate.{nas_count_limit};
ghost use Rattle.nas_guard.specs.Open.{IsProtected, first_in, header_in, sn_in};
ghost use Rattle.nas_guard.specs.Seal.{is_ciphered};
ghost use Rattle.lte_events.specs.declared.answers.Answer.TheVariants.{MacFails};
ghost use Rattle.lte_machine.specs.Calls.{use_out};
ghost use Rattle.lte_machine.specs.Ciphers.{annex_b};
ghost use Rattle.lte_machine.specs.Opening.{OpensNas, open_octets};
ghost use Rattle.lte_machine.specs.Wire.{ciphering_if, nas_use, nas_ciphering};
ghost use Rattle.nas_smc.specs.Opening.{outcome_of};

use annex_a_keys::AlgType;
use lte_events::Answer;
use nas_count::RxCount;
use nas_guard::{NasKeys, OpenFault, Opened, open};
use rec_base::{Dir, Octets, Use};

// The MAC computed and the MAC received, where they differ.
#[derive(Clone, Copy)]
pub(crate) struct Macs {
    wanted: [u8; 4],
    got: [u8; 4],
}

impl Macs {
    // The answer that tells them.
    pub(crate) fn fails(&self, count: u32) -> Answer
        ensures { result ≡ MacFails count self.now.wanted self.now.got }
    {
        let wanted = self.wanted;
        let got = self.got;
        Answer::MacFails(count, wanted, got)
    }
}

// Opens a message at its COUNT: the text, or the MAC computed and the MAC received (TS 24.301 4.4.3.3).
#[tactic(auto, using(crate::proofs::Sealing::opens_so, crate::proofs::Sealing::fails_so))]
pub(crate) fn opened(
    keys: &NasKeys,
    receive: &RxCount,
    header: u8,
    dir: Dir,
    count: u32,
    pdu: &[u8],
) -> Result<Octets, Macs>
    requires long { 6 ≤ length pdu.now }
    requires length { length pdu.now ≤ longest_record }
    requires protected { IsProtected (first_in pdu.now) }
    requires header { header ≡ header_in pdu.now }
    requires count { count ≡ least receive.now (sn_in pdu.now) 256 }
    requires below { count < nas_count_limit }
    ensures { open_octets annex_b
        (OpensNas (nas_use dir keys.now.int count) (ciphering_if (is_ciphered header) (nas_ciphering dir keys.now count))) pdu.now
        ≡ outcome_of result }
{
    match open(keys, receive, dir, pdu) {
        Ok(Opened { text, .. }) => Ok(text),
        Err(OpenFault::MacFails { wanted, got, .. }) => Err(Macs { wanted, got }),
        Err(OpenFault::Short) => unreachable!(),
        Err(OpenFault::BadHeader(_)) => unreachable!(),
        Err(OpenFault::CountSpent) => unreachable!(),
    }
}

// The integrity use of a message.
pub(crate) fn integrity_use(keys: &NasKeys, dir: Dir, count: u32) -> Use
    ensures { result ≡ use_out (nas_use dir keys.now.int count) }
{
    Use {
        key: keys.key(AlgType::NasInt),
        count,
        bearer: 0,
        dir,
    }
}
