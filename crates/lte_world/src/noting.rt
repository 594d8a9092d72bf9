// The ladder with what a step derived, and with who holds it.
ghost use Rattle.std.specs.Prelude.{◌≡◌, ◌≢◌, ◌+◌, ◌≤◌, ◌<◌, [], ◌∷◌, List, ℕ, Err, length, map, IfErr};
ghost use Rattle.key_terms.specs.Ladder.{IsHolder};
ghost use Rattle.store_laws.specs.Joins.{HasRow};
ghost use Rattle.lte_world.specs.Networks.{Awaits, AddsAll, CountIn, HasKeys, HasRows, HoldsAll, HoldsOne, keys_in, told};

use annex_a_keys::Derived;
use hmac_kdf::KdfInput;
use key_terms::{Holder, Ladder, LadderFault, Proof, Row};

// Adds derivations to the ladder, to the first that coincides with a row.
pub(crate) fn add_all(ladder: &mut Ladder, derived: &[Derived]) -> Result<(), Proof>
    requires room { length derived.now ≤ ladder.old.spare }
    requires awaits { Awaits ladder.old.rows derived.now }
    ensures added { AddsAll ladder.old.rows ladder.new.rows derived.now result }
    ensures few { length ladder.new.rows ≤ length ladder.old.rows + length derived.now }
{
    for made in derived {
        add_one(ladder, made)?;
    }
    Ok(())
}

// Adds one.
fn add_one(ladder: &mut Ladder, made: &Derived) -> Result<(), Proof>
    requires room { 0 < ladder.old.spare }
    requires awaits { Awaits ladder.old.rows (made.now ∷ []) }
    ensures added { AddsAll ladder.old.rows ladder.new.rows (made.now ∷ []) result }
    ensures one { length ladder.new.rows ≤ length ladder.old.rows + 1 }
    ensures spare { ladder.old.spare ≤ ladder.new.spare + 1 }
{
    has_range(made.input);
    let added = ladder.add(made);
    told(added, made)
}

// What is told of it. No derivation is refused as a repeated root, nor for want of memory.
fn told(added: Result<Row, LadderFault>, made: &Derived) -> Result<(), Proof>
    requires memory { added ≢ Err LadderFault.Memory }
    requires derived { IfErr added (λ fault. (row : Row) → fault ≡ LadderFault.RepeatedRoot row → ⊥) }
    ensures { result ≡ told made.now added }
{
    match added {
        Ok(_) => Ok(()),
        Err(LadderFault::Coincidence(row, _)) => Err(Proof::Rows(row, *made)),
        Err(LadderFault::Memory) => unreachable!(),
        Err(LadderFault::RepeatedRoot(_)) => unreachable!(),
    }
}

// The COUNT of an input has 32 bits.
fn has_range(input: KdfInput)
    ensures { CountIn input }
{
    match input {
        KdfInput::Kenb(_count) => {}
        KdfInput::Nh(_) | KdfInput::Star(..) | KdfInput::Alg(..) => {}
    }
}

// Notes one holder of a key that has a row.
pub(crate) fn hold_one(ladder: &mut Ladder, who: Holder, key: &[u8; 32])
    requires stands { HasRow ladder.old.rows key.now }
    requires holder { IsHolder who }
    ensures held { HoldsOne who key.now ladder.old.rows ladder.new.rows }
    ensures rows { (k : List ℕ) → HasRow ladder.old.rows k → HasRow ladder.new.rows k }
    ensures len { length ladder.new.rows ≡ length ladder.old.rows }
    ensures spare { ladder.new.spare ≡ ladder.old.spare }
{
    if let Some(row) = ladder.find(key) {
        ladder.hold(who, row);
    }
}

// Notes the holder of a key that was received, if one was.
pub(crate) fn hold_received(ladder: &mut Ladder, who: Holder, received: &Option<[u8; 32]>)
    requires stands { HasKeys ladder.old.rows (keys_in received.now) }
    requires holder { IsHolder who }
    ensures held { HoldsAll who (keys_in received.now) ladder.old.rows ladder.new.rows }
    ensures rows { (k : List ℕ) → HasRow ladder.old.rows k → HasRow ladder.new.rows k }
    ensures len { length ladder.new.rows ≡ length ladder.old.rows }
    ensures spare { ladder.new.spare ≡ ladder.old.spare }
{
    if let Some(key) = received {
        hold_one(ladder, who, key);
    }
}

// Notes one holder of each key that was derived.
pub(crate) fn hold_all(ladder: &mut Ladder, who: Holder, derived: &[Derived])
    requires stand { HasRows ladder.old.rows derived.now }
    requires holder { IsHolder who }
    ensures held { HoldsAll who (map (λ d. d.out) derived.now) ladder.old.rows ladder.new.rows }
    ensures len { length ladder.new.rows ≡ length ladder.old.rows }
    ensures spare { ladder.new.spare ≡ ladder.old.spare }
{
    for made in derived {
        hold_one(ladder, who, &made.out);
    }
}
