//! A TOML document read, with evidence where memory ran out that std refused a growth.
#![tactic(auto)]

ghost use Rattle.std.specs.Prelude.{◌≡◌, Some, None, IfErr, IfOk, IsUtf8};
ghost use Rattle.growth.specs.Growth.{WasRefused};
ghost use Rattle.toml.specs.Parse.{parse_document};
ghost use Rattle.toml.specs.Errors.{IsMemory};
ghost use Rattle.toml.specs.View.{table_view};

use std::alloc::Global;
use toml::Table;
use toml::de::Error;

/// The table that octets say.
pub fn table_from_slice(alloc: Global, octets: &[u8]) -> Result<Table, Error>
    ensures ok { IfOk result (λ t. IsUtf8 octets.now × (parse_document octets.now ≡ Some (table_view t))) }
    ensures refused { IfErr result (λ e. ¬ IsMemory e → IsUtf8 octets.now → parse_document octets.now ≡ None) }
    ensures memory { IfErr result (λ e. IsMemory e → WasRefused) }
{
    toml::table_from_slice(alloc, octets)
}
