use crate::values::same;
use rec_base::{Octets, RecFault};
use rec_fields::{cell_at, list_of, put_cell};

#[test]
fn cell_is_two_fields(rt: HostRuntime) {
    let octets = [0, 0x01, 0xf7, 0, 3, 0xff, 0xff, 0x01, 0xf8, 0, 4, 0, 0];
    let cell = cell_at(&octets, 1);
    assert!(rt; cell.is_ok());
    if let Ok(cell) = cell {
        same(&rt, (cell.pci(), cell.earfcn()), (503, 262143));
        let mut out: Octets = list_of(&[7]);
        put_cell(&mut out, &cell);
        same(
            &rt,
            out.as_slice(),
            [7, 0x01, 0xf7, 0, 3, 0xff, 0xff].as_slice(),
        );
    }
    same(&rt, cell_at(&octets, 7), Err(RecFault::BadField(7)));
    same(&rt, cell_at(&octets, 2), Err(RecFault::BadField(2)));
}
