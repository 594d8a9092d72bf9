// The places of acts, behind so many events of a scenario.
ghost use Rattle.std.specs.Prelude.{◌≡◌, ◌≤◌};
ghost use Rattle.item_faults.specs.Entries.{most_steps};
ghost use Rattle.item_faults.specs.Steps.{service};
ghost use Rattle.item_probe.specs.Places.{authenticates, begins_at, begins_security, connects_at, go_idle, send_again, send_anew, send_down, send_nas_down, send_nas_up, send_up};

pub(crate) fn service(steps: u32) -> u32
    requires { steps ≤ most_steps }
    ensures { result ≡ service steps }
{
    steps + 1
}

pub(crate) fn send_up(steps: u32) -> u32
    requires { steps ≤ most_steps }
    ensures { result ≡ send_up steps }
{
    steps + 26
}

pub(crate) fn send_again(steps: u32) -> u32
    requires { steps ≤ most_steps }
    ensures { result ≡ send_again steps }
{
    steps + 27
}

pub(crate) fn send_nas_up(steps: u32) -> u32
    requires { steps ≤ most_steps }
    ensures { result ≡ send_nas_up steps }
{
    steps + 28
}

pub(crate) fn send_nas_down(steps: u32) -> u32
    requires { steps ≤ most_steps }
    ensures { result ≡ send_nas_down steps }
{
    steps + 29
}

pub(crate) fn go_idle(steps: u32) -> u32
    requires { steps ≤ most_steps }
    ensures { result ≡ go_idle steps }
{
    steps + 30
}

pub(crate) fn send_down(steps: u32, station: u8) -> u32
    requires { steps ≤ most_steps }
    ensures { result ≡ send_down steps station }
{
    steps + 31 + 3 * u32::from(station)
}

pub(crate) fn begins_at(steps: u32, station: u8) -> u32
    requires { steps ≤ most_steps }
    ensures { result ≡ begins_at steps station }
{
    steps + 32 + 3 * u32::from(station)
}

pub(crate) fn connects_at(steps: u32, station: u8) -> u32
    requires { steps ≤ most_steps }
    ensures { result ≡ connects_at steps station }
{
    steps + 33 + 3 * u32::from(station)
}

pub(crate) fn authenticates(steps: u32) -> u32
    requires { steps ≤ most_steps }
    ensures { result ≡ authenticates steps }
{
    steps + 55
}

pub(crate) fn begins_security(steps: u32) -> u32
    requires { steps ≤ most_steps }
    ensures { result ≡ begins_security steps }
{
    steps + 56
}

pub(crate) fn send_anew(steps: u32) -> u32
    requires { steps ≤ most_steps }
    ensures { result ≡ send_anew steps }
{
    steps + 57
}
