ghost use Rattle.std.specs.Prelude.{◌≡◌, []};
ghost use Rattle.key_model.specs.Term.{Root};
ghost use Rattle.key_model.specs.Chain.{nh};

use key_model::{
    KeySet, derivable_keys_come_from_the_set, lines_are_carried, no_key_above_is_derivable,
    star_is_derivable_from_its_nh, uses_are_carried,
};

// The third NH of a chain, alone.
struct ThirdNh;

impl KeySet for ThirdNh {
    ghost contains = { λ _ t. t ≡ nh (Root 0 []) 5 3 };
}

#[test]
fn a_set_of_one_nh_has_the_laws() {
    derivable_keys_come_from_the_set::<ThirdNh>();
    no_key_above_is_derivable::<ThirdNh>();
    star_is_derivable_from_its_nh::<ThirdNh>();
}

#[test]
fn readings_of_octets_have_the_laws() {
    lines_are_carried::<[u8; 32], u8, [u8; 32], u8>();
    uses_are_carried::<[u8; 32], u8, [u8; 32], u8, bool>();
}
