ghost use Rattle.std.specs.Prelude.{◌≡◌, ◌<◌, List, length};
ghost use Rattle.hmac_kdf.specs.Kdf.{IsKdfInput};
ghost use Rattle.hmac_kdf.specs.declared.input.KdfInput.{KdfInput};
ghost use Rattle.annex_a_keys.specs.AlgType.{distinguisher};
ghost use Rattle.annex_a_keys.specs.Derived.{derivation};
ghost use Rattle.ladder_text.specs.Report.{KeyRow, key_at};
ghost use Rattle.ladder_text.specs.Rows.{StandsFor, Awaits, Asks};

use crate::line::LadderLine;
use annex_a_keys::{AlgType, Derived, Kasme, Kenb, Nh};
use key_terms::{Ladder, Row};

/// What a line asks the ladder for: a row with the octets of a root, or the row of a derivation.
#[derive(Clone, Copy)]
pub(crate) enum Asked {
    /// A root's 32 octets.
    Root([u8; 32]),
    /// A derivation from the keys of the rows that the line names.
    Derivation(Derived),
}

// What a line asks for.
pub(crate) fn asked_by(ladder: &Ladder, line: &LadderLine) -> Asked
    requires { Awaits ladder.now.rows line.now }
    ensures { (rows : List KeyRow) → StandsFor rows ladder.now.rows → Asks rows line.now result }
{
    match *line {
        LadderLine::Root(octets) => Asked::Root(octets),
        LadderLine::Kenb { root, count } => {
            let kasme = Kasme::of_octets(octets(ladder, root));
            Asked::Derivation(kasme.kenb(count).1)
        }
        LadderLine::Nh { root, sync } => {
            let kasme = Kasme::of_octets(octets(ladder, root));
            let sync = Nh::of_octets(octets(ladder, sync));
            Asked::Derivation(kasme.nh_next(&sync).1)
        }
        LadderLine::Star { key, cell } => {
            let kenb = Kenb::of_octets(octets(ladder, key));
            Asked::Derivation(kenb.star(&cell).1)
        }
        LadderLine::Alg { key, kind, id } => {
            Asked::Derivation(alg_derived(octets(ladder, key), kind, id))
        }
    }
}

// The derivation of an algorithm key, from KASME for the types of NAS and from KeNB for the others.
fn alg_derived(key: [u8; 32], kind: AlgType, id: u8) -> Derived
    ensures value { result ≡ derivation key (KdfInput.Alg (distinguisher kind) id) }
    ensures input { IsKdfInput result.input }
{
    match kind {
        AlgType::NasEnc | AlgType::NasInt => Kasme::of_octets(key).nas_alg(kind, id).1,
        AlgType::RrcEnc | AlgType::RrcInt | AlgType::UpEnc => Kenb::of_octets(key).alg(kind, id).1,
    }
}

// The octets of a row.
pub(crate) fn octets(ladder: &Ladder, row: Row) -> [u8; 32]
    requires { row.0 < length ladder.now.rows }
    ensures { (rows : List KeyRow) → StandsFor rows ladder.now.rows → result ≡ key_at rows row }
{
    ladder.row(row).octets
}
