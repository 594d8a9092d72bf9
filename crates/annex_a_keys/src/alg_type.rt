ghost use Rattle.std.specs.Prelude.{◌≡◌};

/// The use of an algorithm key (TS 33.401 A.7, table A.7-1).
#[derive(Clone, Copy)]
pub enum AlgType {
    /// NAS encryption, 1.
    NasEnc = 1,
    /// NAS integrity, 2.
    NasInt = 2,
    /// RRC encryption, 3.
    RrcEnc = 3,
    /// RRC integrity, 4.
    RrcInt = 4,
    /// User-plane encryption, 5.
    UpEnc = 5,
}

impl AlgType {
    ghost use Rattle.annex_a_keys.specs.AlgType.{distinguisher};

    /// The algorithm type distinguisher, 1 to 5.
    pub fn distinguisher(self) -> u8
        ensures { result ≡ distinguisher self }
    {
        self as u8
    }
}
