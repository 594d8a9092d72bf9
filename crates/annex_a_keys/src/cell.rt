ghost use Rattle.std.specs.Prelude.{◌≡◌, ◌<◌, ◌≤◌, ◌↔◌, IfOk, IsErrOf};
ghost use Rattle.hmac_kdf.specs.Kdf.{greatest_earfcn};
ghost use Rattle.annex_a_keys.specs.Cell.{greatest_pci};

use std::marker::Model;

/// The greatest physical cell identity (TS 36.331 6.3.4, PhysCellId).
pub const GREATEST_PCI: u16 = 503;

/// The greatest downlink EARFCN, of 18 bits (TS 36.331 6.4, maxEARFCN2).
pub const GREATEST_EARFCN: u32 = 262143;

/// A cell as the derivation of KeNB* sees it (TS 33.401 A.5): its PCI and its EARFCN-DL, both in
/// range.
#[derive(Clone, Copy, Debug, Default, PartialEq, Eq)]
pub struct Cell {
    pci: u16,
    earfcn: u32,
}

impl Model for Cell {
    ghost use Rattle.annex_a_keys.specs.Cell.{Place, IsCell};

    ghost Value = { Place };

    ghost view = { λ c. record { pci = c.pci; earfcn = c.earfcn } };

    ghost invariant = { λ c. IsCell (record { pci = c.pci; earfcn = c.earfcn }) };

    ghost inverse = { λ p. record { pci = p.pci; earfcn = p.earfcn } };
}

/// Why a cell was refused.
#[derive(Clone, Copy, Debug, PartialEq, Eq)]
pub enum CellFault {
    /// The PCI is above 503.
    PciTooLarge,
    /// The EARFCN-DL is above 262143, the PCI being good.
    EarfcnWide,
}

impl Cell {
    /// The cell with this PCI and this EARFCN-DL.
    pub fn new(pci: u16, earfcn: u32) -> Result<Cell, CellFault>
        ensures cell { IfOk result (λ cell. cell ≡ record { pci = pci; earfcn = earfcn }) }
        ensures pci_too_large { IsErrOf result CellFault.PciTooLarge ↔ (greatest_pci < pci) }
        ensures earfcn_wide { IsErrOf result CellFault.EarfcnWide ↔ ((pci ≤ greatest_pci) × (greatest_earfcn < earfcn)) }
    {
        if pci > GREATEST_PCI {
            return Err(CellFault::PciTooLarge);
        }
        if earfcn > GREATEST_EARFCN {
            return Err(CellFault::EarfcnWide);
        }
        Ok(Cell { pci, earfcn })
    }

    /// The physical cell identity, 0 to 503.
    pub fn pci(&self) -> u16
        ensures value { result ≡ self.now.pci }
        ensures in_range { result ≤ greatest_pci }
    {
        self.pci
    }

    /// The downlink EARFCN, 0 to 262143.
    pub fn earfcn(&self) -> u32
        ensures value { result ≡ self.now.earfcn }
        ensures in_range { result ≤ greatest_earfcn }
    {
        self.earfcn
    }
}
