ghost use Rattle.std.specs.Prelude.{◌≡◌};
ghost use Rattle.lte_sec_c.specs.Status.{version};

/// The version of the calls and structs: that of the header has to be the same.
#[unsafe(no_mangle)]
pub extern "C" fn ltesec_version() -> u32
    ensures { result ≡ version }
{
    2
}
