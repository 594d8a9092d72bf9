// The lines of the keys of a scenario.
ghost use Rattle.std.specs.Prelude.{◌≡◌};
ghost use Rattle.scenario_file.specs.declared.fields.Field.{Field};
ghost use Rattle.scenario_file.specs.Field.{name_of};
ghost use Rattle.lte_tables.specs.Outcomes.{IsAmong};
ghost use Rattle.lte_tables.specs.Scenario.{field_lines, fields};

/// The lines of the keys of a scenario; each has one.
pub fn field_lines() -> &'static str
    ensures lines { result.now ≡ field_lines }
    ensures all { (field : Field) → IsAmong name_of fields field }
{
    "\
field phone
field core
field station
field step
field caps
field priority
field first
field first_ncc
field id
field cells
field do
field ksi
field kasme
field cell
field record
field from
field bearer
field text
field who
field n
field to
field air
field octets
field fleet
field phones
"
}
