ghost use Rattle.std.specs.Prelude.{◌≡◌};

/// An EPS encryption algorithm (TS 33.401 5.1.3.2).
#[derive(Clone, Copy, Debug, PartialEq, Eq)]
pub enum Eea {
    /// The null algorithm, which leaves a text as it is: identity 0.
    Eea0,
    /// 128-EEA2, AES in counter mode: identity 2.
    Eea2,
}

impl Default for Eea {
    ghost use Rattle.std.specs.Prelude.{◌≡◌};
    ghost use Rattle.alg_choice.specs.declared.algs.Eea.TheVariants.{Eea0};

    ghost is_default = { λ v. v ≡ Eea0 };

    fn default() -> Eea {
        Eea::Eea0
    }
}

impl Eea {
    ghost use Rattle.alg_choice.specs.Algs.{identity_of};

    /// The algorithm identity, of four bits: 0 or 2.
    pub fn identity(self) -> u8
        ensures { result ≡ identity_of self }
    {
        match self {
            Eea::Eea0 => 0,
            Eea::Eea2 => 2,
        }
    }
}

/// The chosen algorithms. The integrity algorithm is always 128-EIA2, of identity 2 (TS 33.401
/// 5.1.4.2).
#[derive(Clone, Copy, Debug, Default, PartialEq, Eq)]
pub struct Algs {
    /// The encryption algorithm.
    pub eea: Eea,
}
