// Laws of the algorithms.
ghost use Rattle.std.specs.Prelude.{◌≡◌, ℕ, List};
ghost use Rattle.alg_choice.specs.declared.algs.Eea.TheVariants as choice;
ghost use Rattle.alg_suite.specs.declared.ciphering.Ciphering.{Ciphering};
ghost use Rattle.alg_suite.specs.declared.ciphering.Ciphering.TheVariants.{Eea0, Eea2};
ghost use Rattle.alg_suite.specs.declared.integrity.Integrity.TheVariants.{Eia2};
ghost use Rattle.alg_suite.specs.Suite.{ciphered_by, mac_by};
ghost use Rattle.nas_guard.specs.Cipher.{ciphered, mac_of};
ghost use Rattle.rec_base.specs.declared.uses.Dir.{Dir};

/// At EEA0, 128-EEA2 and 128-EIA2 the algorithms are those of nas_guard, by which its NAS messages and the PDUs of pdcp_guard are
/// protected.
pub fn are_those_of_nas_guard()
    ensures eea0 { (key : List ℕ) (count bearer : ℕ) (dir : Dir) (text : List ℕ)
        → ciphered_by Eea0 key count bearer dir text ≡ ciphered choice.Eea0 key count bearer dir text }
    ensures eea2 { (key : List ℕ) (count bearer : ℕ) (dir : Dir) (text : List ℕ)
        → ciphered_by Eea2 key count bearer dir text ≡ ciphered choice.Eea2 key count bearer dir text }
    ensures eia2 { (key : List ℕ) (count bearer : ℕ) (dir : Dir) (text : List ℕ)
        → mac_by Eia2 key count bearer dir text ≡ mac_of key count bearer dir text }
{}

/// To cipher twice under one algorithm, key, COUNT, BEARER and DIRECTION gives the text back.
pub fn ciphered_twice_is_the_text()
    ensures { (eea : Ciphering) (key : List ℕ) (count bearer : ℕ) (dir : Dir) (text : List ℕ)
        → ciphered_by eea key count bearer dir (ciphered_by eea key count bearer dir text) ≡ text }
{}
