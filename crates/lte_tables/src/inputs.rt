// The lines of the inputs of actors.
ghost use Rattle.std.specs.Prelude.{◌≡◌};
ghost use Rattle.lte_tables.specs.Inputs.{AreInputs, input_lines};

/// The lines of the inputs of phone, stations and core behind their Setup; each kind of frame that is read has one.
pub fn input_lines() -> &'static str
    ensures lines { result.now ≡ input_lines }
    ensures all { AreInputs }
{
    "\
input phone 1 Auth
input phone 2 Nas
input phone 3 Air
input phone 16 ServiceRequest
input phone 17 ResendComplete
input phone 18 GoIdle
input phone 19 SendUser
input phone 20 SendRrc
input phone 21 SendNas
input phone 22 Skip
input station 3 Air
input station 4 S1
input station 5 X2
input station 19 SendUser
input station 20 SendRrc
input station 22 Skip
input station 48 Start
input station 49 Command
input station 50 Cancel
input station 51 Ask
input core 1 Auth
input core 2 Nas
input core 4 S1
input core 21 SendNas
input core 22 Skip
input core 32 StartSmc
input core 33 Connect
input core 34 Release
"
}
