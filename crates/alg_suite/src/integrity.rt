ghost use Rattle.std.specs.Prelude.{◌≡◌};

/// An EPS integrity algorithm (TS 33.401 5.1.4.2).
#[derive(Clone, Copy)]
pub enum Integrity {
    /// The null algorithm, whose MAC is four zero octets and shows nothing: identity 0. Only emergency calls without
    /// authentication may use it (TS 33.401 5.1.4.1, the clause number from memory).
    Eia0,
    /// 128-EIA1, SNOW 3G: identity 1.
    Eia1,
    /// 128-EIA2, AES in CMAC mode: identity 2.
    Eia2,
    /// 128-EIA3, ZUC: identity 3.
    Eia3,
}

impl Integrity {
    ghost use Rattle.alg_suite.specs.Suite.{eia_identity};

    /// The algorithm identity, of four bits: 0 to 3.
    pub fn identity(self) -> u8
        ensures { result ≡ eia_identity self }
    {
        match self {
            Integrity::Eia0 => 0,
            Integrity::Eia1 => 1,
            Integrity::Eia2 => 2,
            Integrity::Eia3 => 3,
        }
    }
}
