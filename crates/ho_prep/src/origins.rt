/// How a preparation came to its station.
#[derive(Clone, Copy)]
pub enum By {
    /// By an X2 Handover Request (TS 33.401 7.2.8.4.2).
    X2,
    /// By an S1 Handover Request (TS 33.401 7.2.8.4.3).
    S1,
    /// By a handover within the station (TS 33.401 7.2.8.4.1), with the source and the attempt of the
    /// X2 handover by which the phone's context came to the station, if it came so.
    Intra(Option<(u8, u32)>),
}

// What the unused places of a list of preparations hold.
impl Default for By {
    ghost use Rattle.std.specs.Prelude.{◌≡◌};
    ghost use Rattle.ho_prep.specs.declared.origins.By.TheVariants.{X2};

    ghost is_default = { λ v. v ≡ X2 };

    fn default() -> By {
        By::X2
    }
}
