ghost use Rattle.std.specs.Prelude.{◌≡◌};

/// How a run of the program ended.
#[derive(Clone, Copy)]
pub enum Status {
    /// The whole report was written.
    Done,
    /// Memory ran out: std refused room.
    Memory,
    /// The words are not a command of the program.
    BadWords,
    /// The input is not a text of the command.
    Refused,
    /// Reading the input failed.
    ReadFault,
    /// Writing the output failed.
    WriteFault,
    /// A peer failed, or the port of a served actor.
    PeerFault,
    /// A coincidence: a derivation or a KASME has the octets of another key, two phones have one key, or a MAC
    /// verified although the record was sealed under another use, or forged.
    Coincidence,
    /// A peer's reply differs from the local actor's.
    Differs,
    /// The input has more than 16,777,216 octets.
    TooLong,
    /// What came in a session is not a frame.
    BadFrame,
}

impl Status {
    ghost use Rattle.lte_sec_app.specs.Status.{code_of};

    /// The exit status, 0 to 10 in the order of the list.
    pub fn code(self) -> u8
        ensures { result ≡ code_of self }
    {
        self as u8
    }
}
