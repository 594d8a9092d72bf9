// Which keys a table may have.
ghost use Rattle.std.specs.Prelude.{◌≡◌, ◌++◌};
ghost use Rattle.std.specs.List.{list_all};
ghost use Rattle.std.specs.BTreeMap.{keys};
ghost use Rattle.std.specs.String.{string_bytes};
ghost use Rattle.toml.specs.View.{table_view};
ghost use Rattle.scenario_file.specs.Keys.{is_one_of, has_only, only_in};

use crate::Field;
use crate::faults::Refusal;
use toml::Table;

// Refuses a table with any other field than these and those that its scenario has more.
#[tactic(auto, unfolding(crate::specs::Keys::only_in))]
pub(crate) fn only(table: &Table, fields: &[Field], more: &[Field]) -> Result<(), Refusal>
    ensures { result ≡ only_in (fields.now ++ more.now) (table_view table.now) }
{
    if has_only(table, fields, more) {
        Ok(())
    } else {
        Err(Refusal::Unknown)
    }
}

// Whether each key of a table is one of these fields.
fn has_only(table: &Table, fields: &[Field], more: &[Field]) -> bool
    ensures { result ≡ has_only (fields.now ++ more.now) (table_view table.now) }
{
    all_named(table, fields, more)
}

fn all_named(table: &Table, fields: &[Field], more: &[Field]) -> bool
    ensures { result ≡ list_all (λ k. is_one_of (fields.now ++ more.now) (string_bytes k)) (keys table.now) }
{
    table.keys().all(|key| is_known(fields, more, key))
}

// Whether a key is one of these fields, or one of those.
#[tactic(auto, using(crate::proofs::TableKeys::known_in_both))]
fn is_known(fields: &[Field], more: &[Field], key: &str) -> bool
    ensures { result ≡ is_one_of (fields.now ++ more.now) key.now }
{
    is_one_of(fields, key) || is_one_of(more, key)
}

// Whether a key is one of these fields.
fn is_one_of(fields: &[Field], key: &str) -> bool
    ensures { result ≡ is_one_of fields.now key.now }
{
    fields.iter().any(|field| field.name() == key)
}
