//! Two sectors that differ in one byte.

use crate::rows::assert_row;
use block_lanes::same;

/// Whether a sector of 90s is told apart from one with this byte at each place.
fn is_told_everywhere(byte: u8) -> bool {
    let a = [90; 512];
    for at in 0..512 {
        let mut b = [90; 512];
        b[at] = byte;
        if same(&a, &b) || same(&b, &a) {
            return false;
        }
    }
    same(&a, &a)
}

#[test]
fn tells_each_byte_apart(rt: HostRuntime) {
    for byte in [0, 91, 218] {
        assert_row(&rt, is_told_everywhere(byte), &byte);
    }
}
