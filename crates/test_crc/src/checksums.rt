//! Checksums of published vectors, and what the theorems on bursts leave out.

use crc::{
    CRC_8_MAXIM_DOW, CRC_8_SMBUS, CRC_16_IBM_SDLC, CRC_16_MODBUS, CRC_16_XMODEM, CRC_24_OPENPGP,
    CRC_32_ISO_HDLC, CRC_64_XZ, CRC_82_DARC, Crc, Slice8, Width, order_from,
};
use std::process::Abort;

const TEXT: &[u8] = b"123456789";

/// Asserts that the checksum of `bytes` is `want`, whole and in two pieces.
fn same<W: Width>(rt: &impl Abort, crc: &Crc<W>, bytes: &[u8], want: W) {
    let middle = bytes.len() / 2;
    let mut digest = crc.digest();
    digest.update(&bytes[..middle]);
    digest.update(&bytes[middle..]);
    let pieces = digest.finalize().to_u128();
    let whole = crc.checksum(bytes).to_u128();
    assert!(rt; whole == want.to_u128());
    assert!(rt; pieces == want.to_u128());
}

/// Tests one algorithm for each type of checksums, and one that isn't reflected.
#[test]
fn check_values(rt: HostRuntime) {
    same(&rt, &Crc::new(&CRC_8_MAXIM_DOW), TEXT, 0xa1);
    same(&rt, &Crc::new(&CRC_16_IBM_SDLC), TEXT, 0x906e);
    same(&rt, &Crc::new(&CRC_24_OPENPGP), TEXT, 0x21_cf02);
    same(&rt, &Crc::new(&CRC_32_ISO_HDLC), TEXT, 0xcbf4_3926);
    same(&rt, &Crc::new(&CRC_64_XZ), TEXT, 0x995d_c9bb_df19_39fa);
    same(
        &rt,
        &Crc::new(&CRC_82_DARC),
        TEXT,
        0x0_9ea8_3f62_5023_801f_d612,
    );
}

/// Tests another initial value: with it, CRC-16/XMODEM is CRC-16/IBM-3740, whose check value is
/// 29b1.
#[test]
fn another_initial_value(rt: HostRuntime) {
    let crc: Crc<u16> = Crc::new(&CRC_16_XMODEM);
    let mut digest = crc.digest_with_initial(0xffff);
    digest.update(TEXT);
    let got = digest.finalize();
    assert!(rt; got == 0x29b1);
}

/// The checksum 31c3 of the message comes lowest byte first, and CRC-16/XMODEM is not reflected. So
/// a change within 13 bits in a row, across the end of the message, can give another message with
/// its own checksum.
#[test]
fn a_burst_across_the_end_passes_unreflected(rt: HostRuntime) {
    let crc: Crc<u16> = Crc::new(&CRC_16_XMODEM);
    same(&rt, &crc, b"123456789", 0x31c3);
    same(&rt, &crc, b"123456788", 0x21e2);
}

/// Asserts that the checksum of a string of 43 bytes, by eight tables, is `want`.
fn by_eights<W: Width>(rt: &impl Abort, crc: &Crc<W, Slice8<W>>, want: W) {
    let got = crc
        .checksum(b"The quick brown fox jumps over the lazy dog")
        .to_u128();
    assert!(rt; got == want.to_u128());
}

#[test]
fn checksums_by_eight_tables(rt: HostRuntime) {
    by_eights(&rt, &Crc::new(&CRC_16_XMODEM), 0xf0c8);
    by_eights(&rt, &Crc::new(&CRC_24_OPENPGP), 0xa2_618c);
    by_eights(&rt, &Crc::new(&CRC_32_ISO_HDLC), 0x414f_a339);
    by_eights(&rt, &Crc::new(&CRC_82_DARC), 0x2_3f7c_05ad_c93e_2ade_9630);
}

fn has_order(rt: &impl Abort, got: u64, want: u64) {
    assert!(rt; got == want);
}

#[test]
fn orders_of_x(rt: HostRuntime) {
    has_order(&rt, order_from(&CRC_8_SMBUS, 256), 127);
    has_order(&rt, order_from(&CRC_16_IBM_SDLC, 40_000), 32_767);
    has_order(&rt, order_from(&CRC_16_MODBUS, 100), 100);
}
