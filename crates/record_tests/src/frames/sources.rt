// What a frame takes of a source, and how its end and its faults are answered.
use crate::values::{same, same_at};
use alg_choice::Caps;
use edge_io::{MemSource, Role, SliceSource, read_fill};
use role_wire::{FrameFault, FrameIn, RoleSetup, read_frame};
use std::process::Abort;
use std::test::Fail;

// Two Setup frames of the phone.
static TWICE: [u8; 10] = [0, 3, 0, 0xa0, 0x20, 0, 3, 0, 0xa0, 0x20];

const SETUP: Caps = Caps {
    eea: 0xa0,
    eia: 0x20,
};

// The capabilities of the Setup that was read, or why none was.
fn caps_of(rt: &impl Abort, read: Result<FrameIn, FrameFault>) -> Result<Caps, FrameFault> {
    match read {
        Ok(FrameIn::Setup(RoleSetup::Phone(caps))) => Ok(caps),
        Ok(_) => panic!(rt; "no Setup of the phone"),
        Err(fault) => Err(fault),
    }
}

#[test]
fn an_input_ends_at_a_frames_edge_or_inside_a_frame(rt: HostRuntime) {
    for size in 0..11 {
        let mut src = SliceSource::new(&TWICE[..size]);
        let first = caps_of(&rt, read_frame(&mut src, Role::Phone, true));
        let second = caps_of(&rt, read_frame(&mut src, Role::Phone, true));
        let want = match size {
            0 => (Err(FrameFault::Ended), Err(FrameFault::Ended)),
            1..=4 => (Err(FrameFault::Truncated), Err(FrameFault::Ended)),
            5 => (Ok(SETUP), Err(FrameFault::Ended)),
            6..=9 => (Ok(SETUP), Err(FrameFault::Truncated)),
            _ => (Ok(SETUP), Ok(SETUP)),
        };
        same_at(&rt, size, (first, second), want);
    }
}

#[test]
fn a_second_setup_is_no_frame(rt: HostRuntime) {
    let mut src = SliceSource::new(&TWICE);
    let first = caps_of(&rt, read_frame(&mut src, Role::Phone, true));
    same(&rt, first, Ok(SETUP));
    let second = read_frame(&mut src, Role::Phone, false).err();
    same(&rt, second, Some(FrameFault::BadBody(0)));
    let third = read_frame(&mut src, Role::Phone, false).err();
    same(&rt, third, Some(FrameFault::Ended));
}

#[test]
fn a_length_ends_at_4096(rt: HostRuntime) {
    let mut octets = [0u8; 4099];
    octets[0] = 0x10;
    octets[2] = 0x02;
    let mut src = SliceSource::new(&octets);
    same(
        &rt,
        read_frame(&mut src, Role::Core, false).err(),
        Some(FrameFault::BadBody(1537)),
    );
    octets[1] = 1;
    let mut src = SliceSource::new(&octets);
    same(
        &rt,
        read_frame(&mut src, Role::Core, false).err(),
        Some(FrameFault::TooLong(4097)),
    );
    // Nothing behind the length was read.
    let mut rest = [0u8; 4099];
    same(&rt, read_fill(&mut src, &mut rest), Ok(4097));
}

#[test]
fn texts_end_at_their_greatest_size(rt: HostRuntime) {
    let table = [
        (Role::Phone, 0x02, 1, 1536),
        (Role::Phone, 0x15, 1, 200),
        (Role::Phone, 0x13, 2, 1500),
        (Role::Core, 0x02, 1, 1536),
        (Role::Core, 0x04, 1, 1536),
        (Role::Core, 0x15, 1, 200),
        (Role::Station(3), 0x04, 1, 1536),
        (Role::Station(3), 0x05, 1, 1536),
    ];
    for (role, kind, place, most) in table {
        let mut octets = [0x81u8; 1600];
        octets[2] = kind;
        for (more, want) in [(0, None), (1, Some((place + most) as u16))] {
            let size = place + most + more;
            octets[0] = (size / 256) as u8;
            octets[1] = (size % 256) as u8;
            let mut src = SliceSource::new(&octets[..size + 2]);
            let fault = read_frame(&mut src, role, false).err();
            same_at(&rt, kind, fault, want.map(FrameFault::BadBody));
        }
    }
}

#[test]
fn a_fault_in_mid_frame_is_answered(rt: HostRuntime) -> Result<(), Fail> {
    for failing in 0..4 {
        let mut numbers = Vec::new(rt.alloc());
        numbers.push(failing)?;
        let mut src = MemSource::new(TWICE[..5].to_vec(rt.alloc())?, numbers);
        let want = if failing < 2 {
            Err(FrameFault::ReadFault)
        } else {
            Ok(SETUP)
        };
        let got = caps_of(&rt, read_frame(&mut src, Role::Phone, true));
        same_at(&rt, failing, got, want);
    }
    Ok(())
}

#[test]
fn faults_have_their_number(rt: HostRuntime) {
    let faults = [
        FrameFault::Ended,
        FrameFault::Truncated,
        FrameFault::TooLong(4097),
        FrameFault::BadBody(3),
        FrameFault::ReadFault,
    ];
    for (i, fault) in faults.iter().enumerate() {
        same(&rt, fault.number() as usize, i + 1);
    }
}
