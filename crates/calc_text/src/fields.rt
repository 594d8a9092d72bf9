ghost use Rattle.std.specs.Prelude.{◌≡◌};

use std::alloc::AllocError;

/// What is bad in a line.
#[derive(Clone, Copy, Drop)]
pub enum Field {
    /// The first word is that of no line.
    Word,
    /// There are more or fewer fields than the line has.
    Fields,
    /// CK.
    Ck,
    /// IK.
    Ik,
    /// A PLMN identity.
    Plmn,
    /// SQN xor AK.
    SqnXorAk,
    /// KASME.
    Kasme,
    /// The SYNC-input of an NH.
    Sync,
    /// A key.
    Key,
    /// An algorithm type, or a security header type.
    Type,
    /// An algorithm identity.
    Id,
    /// A COUNT.
    Count,
    /// BEARER.
    Bearer,
    /// DIRECTION.
    Direction,
    /// A cell's PCI.
    Pci,
    /// A cell's EARFCN-DL.
    Earfcn,
    /// A text.
    Text,
    /// EPS algorithms: that of encryption by its identity, 0 to 3, or also that of integrity behind a slash.
    Eea,
    /// An EPS integrity algorithm, by its identity 0 to 3.
    Eia,
    /// A PDU.
    Pdu,
    /// The bits of a sequence number.
    Bits,
    /// The NCC of a phone's chain.
    NccInUse,
    /// The NCC of a handover command.
    Ncc,
    /// A cell's identity, of 28 bits.
    CellIdentity,
    /// A phone's C-RNTI.
    CRnti,
}

impl Field {
    ghost use Rattle.calc_text.specs.Answer.{name_of};

    /// The field's name.
    pub fn name(self) -> &'static str
        ensures { result.now ≡ name_of self }
    {
        match self {
            Field::Word => "word",
            Field::Fields => "fields",
            Field::Ck => "ck",
            Field::Ik => "ik",
            Field::Plmn => "plmn",
            Field::SqnXorAk => "sqn-xor-ak",
            Field::Kasme => "kasme",
            Field::Sync => "sync",
            Field::Key => "key",
            Field::Type => "type",
            Field::Id => "id",
            Field::Count => "count",
            Field::Bearer => "bearer",
            Field::Direction => "direction",
            Field::Pci => "pci",
            Field::Earfcn => "earfcn",
            Field::Text => "text",
            Field::Eea => "eea",
            Field::Eia => "eia",
            Field::Pdu => "pdu",
            Field::Bits => "bits",
            Field::NccInUse => "ncc-in-use",
            Field::Ncc => "ncc",
            Field::CellIdentity => "cell-identity",
            Field::CRnti => "c-rnti",
        }
    }
}

/// Why a line was not read.
#[derive(Clone, Copy, Drop)]
pub enum LineFault {
    /// Memory ran out. This says nothing of the line.
    Memory,
    /// The first field that is bad.
    Bad(Field),
}

impl From<AllocError> for LineFault {
    ghost use Rattle.std.specs.Prelude.{◌≡◌};
    ghost use Rattle.calc_text.specs.declared.fields.LineFault.TheVariants.{Memory};

    ghost from_gives = { λ _ fault. fault ≡ Memory };

    fn from(_fault: AllocError) -> LineFault {
        LineFault::Memory
    }
}
