use crate::values::same;
use alg_choice::{Algs, Caps, Eea};
use nas_rec::NasRecord;
use rec_base::RecFault;

#[test]
fn records_are_read_as_spelled_and_written_back(rt: HostRuntime) {
    let algs = Algs { eea: Eea::Eea2 };
    let caps = Caps {
        eea: 0xa0,
        eia: 0x20,
    };
    let octets = [0x01, 6, 0x22, 0xa0, 0x20];
    let command = NasRecord::SecurityModeCommand { ksi: 6, algs, caps };
    same(&rt, command.write().as_slice(), octets.as_slice());
    assert!(rt;
        matches!(
            NasRecord::read(&octets),
            Ok(NasRecord::SecurityModeCommand {
                ksi: 6,
                algs: Algs { eea: Eea::Eea2 },
                caps: Caps {
                    eea: 0xa0,
                    eia: 0x20
                }
            })
        )
    );
    let reject = NasRecord::SecurityModeReject { cause: 23 };
    same(&rt, reject.write().as_slice(), [0x03, 0x17].as_slice());
    assert!(rt;
        matches!(
            NasRecord::read(&[0x03, 0x17]),
            Ok(NasRecord::SecurityModeReject { cause: 23 })
        )
    );
    assert!(rt;
        matches!(
            NasRecord::read(&[0x02]),
            Ok(NasRecord::SecurityModeComplete)
        )
    );
    assert!(rt; matches!(NasRecord::read(&[0x04]), Ok(NasRecord::ServiceRequest)));
    same(
        &rt,
        NasRecord::ServiceRequest.write().as_slice(),
        [0x04].as_slice(),
    );
}

#[test]
fn text_has_up_to_200_octets(rt: HostRuntime) {
    let mut octets = [7u8; 202];
    octets[0] = 0x05;
    match NasRecord::read(&octets[..1]) {
        Ok(NasRecord::NasData(text)) => same(&rt, text.as_slice().len(), 0),
        _ => panic!(rt; "no text of no octet"),
    }
    match NasRecord::read(&octets[..201]) {
        Ok(NasRecord::NasData(text)) => same(&rt, text.as_slice(), &octets[1..201]),
        _ => panic!(rt; "no text of 200 octets"),
    }
    same(&rt, NasRecord::read(&octets).err(), Some(RecFault::Long));
}

// Octets that are no record, and why.
static FAULTS: [(&[u8], RecFault); 15] = [
    (&[], RecFault::Short),
    (&[0x00], RecFault::BadKind),
    (&[0x06, 0, 0], RecFault::BadKind),
    (&[0x01, 7, 0, 0], RecFault::Short),
    (&[0x01, 7, 0, 0, 0, 0], RecFault::Long),
    (&[0x01, 7, 0, 0, 0], RecFault::BadField(1)),
    (&[0x01, 6, 0x12, 0, 0], RecFault::BadField(2)),
    (&[0x01, 6, 0x20, 0, 0], RecFault::BadField(2)),
    (&[0x02, 0], RecFault::Long),
    (&[0x03], RecFault::Short),
    (&[0x03, 23, 0], RecFault::Long),
    (&[0x03, 22], RecFault::BadField(1)),
    (&[0x03, 25], RecFault::BadField(1)),
    (&[0x03, 0x23], RecFault::BadField(1)),
    (&[0x04, 0], RecFault::Long),
];

#[test]
fn fault_is_the_first_in_order(rt: HostRuntime) {
    for (octets, fault) in &FAULTS {
        same(&rt, NasRecord::read(octets).err(), Some(*fault));
    }
}
