ghost use Rattle.std.specs.Prelude.{◌≡◌};

/// An EPS encryption algorithm (TS 33.401 5.1.3.2).
#[derive(Clone, Copy)]
pub enum Ciphering {
    /// The null algorithm, which leaves a text as it is: identity 0.
    Eea0,
    /// 128-EEA1, SNOW 3G: identity 1.
    Eea1,
    /// 128-EEA2, AES in counter mode: identity 2.
    Eea2,
    /// 128-EEA3, ZUC: identity 3.
    Eea3,
}

impl Ciphering {
    ghost use Rattle.alg_suite.specs.Suite.{eea_identity};

    /// The algorithm identity, of four bits: 0 to 3.
    pub fn identity(self) -> u8
        ensures { result ≡ eea_identity self }
    {
        match self {
            Ciphering::Eea0 => 0,
            Ciphering::Eea1 => 1,
            Ciphering::Eea2 => 2,
            Ciphering::Eea3 => 3,
        }
    }
}
