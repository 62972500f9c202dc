//! Messages worked out by hand, refusals, and bursts tried one by one.

use arrayvec::ArrayVec;
use crc::{
    CRC_8_MAXIM_DOW, CRC_16_IBM_SDLC, CRC_16_KERMIT, CRC_16_MODBUS, CRC_16_USB, CRC_16_XMODEM,
    CRC_32_ISCSI, CRC_32_ISO_HDLC, CRC_64_XZ, CRC_82_DARC, Crc,
};
use postcard_crc::de::{
    from_bytes, from_bytes as from_bytes_crc32, from_bytes_cobs, from_bytes_whole, take_from_bytes,
};
use postcard_crc::ser::{
    to_allocvec, to_allocvec_cobs, to_slice, to_slice as to_slice_crc32, to_slice_cobs, to_vec,
};
use postcard_wire::Error;
use std::alloc::Global;
use std::process::Abort;
use std::test::Fail;

/// Asserts that two lists of bytes are the same.
fn same(rt: &impl Abort, got: &[u8], want: &[u8]) {
    assert!(rt; *got == *want);
}

/// Asserts that two numbers are equal.
fn equal(rt: &impl Abort, got: u64, want: u64) {
    assert!(rt; got == want);
}

/// Asserts that a call failed with an error.
fn refused(rt: &impl Abort, got: Result<u8, Error>, want: Error) {
    let as_wanted = match got {
        Ok(_) => false,
        Err(error) => error == want,
    };
    assert!(rt; as_wanted);
}

/// Tests the frames of `docs/FORMAT.md`.
#[test]
fn written(rt: HostRuntime) -> Result<(), Fail> {
    let maxim: Crc<u8> = Crc::new(&CRC_8_MAXIM_DOW);
    let sdlc: Crc<u16> = Crc::new(&CRC_16_IBM_SDLC);
    let iscsi: Crc<u32> = Crc::new(&CRC_32_ISCSI);
    let mut buffer = [0; 8];
    same(
        &rt,
        to_slice(&1u8, &mut buffer, maxim.digest())?,
        &[0x01, 0x5e],
    );
    let vec: ArrayVec<u8, 3> = to_vec(&0u8, sdlc.digest())?;
    same(&rt, vec.as_slice(), &[0x00, 0x78, 0xf0]);
    let vec = to_allocvec(rt.alloc(), &(7u8, 300u32), iscsi.digest())?;
    same(
        &rt,
        vec.as_slice(),
        &[0x07, 0xac, 0x02, 0x7b, 0x0c, 0x79, 0xa2],
    );
    same(
        &rt,
        to_slice_cobs(&0u8, &mut buffer, sdlc.digest())?,
        &[0x01, 0x03, 0x78, 0xf0, 0x00],
    );
    let frame = to_allocvec_cobs(rt.alloc(), &1u8, maxim.digest())?;
    same(&rt, frame.as_slice(), &[0x03, 0x01, 0x5e, 0x00]);
    Ok(())
}

/// Tests the example of `docs/CALLING.md`.
#[test]
fn example(rt: HostRuntime) -> Result<(), Fail> {
    let crc: Crc<u32> = Crc::new(&CRC_32_ISCSI);
    let mut buffer = [0; 16];
    let sent = to_slice_crc32(&(7u8, 300u32), &mut buffer, crc.digest())?;
    let (sensor, tenths): (u8, u32) = from_bytes_crc32(rt.alloc(), sent, crc.digest())?;
    equal(&rt, u64::from(sensor), 7);
    equal(&rt, u64::from(tenths), 300);
    Ok(())
}

#[test]
fn read(rt: HostRuntime) -> Result<(), Fail> {
    let sdlc: Crc<u16> = Crc::new(&CRC_16_IBM_SDLC);
    let (value, rest): (u8, &[u8]) = take_from_bytes(
        rt.alloc(),
        &[0x00, 0x78, 0xf0, 0x99],
        sdlc.digest(),
    )?;
    equal(&rt, u64::from(value), 0);
    same(&rt, rest, &[0x99]);
    let value: u8 = from_bytes(rt.alloc(), &[0x00, 0x78, 0xf0, 0x99], sdlc.digest())?;
    equal(&rt, u64::from(value), 0);
    let value: u8 = from_bytes_whole(rt.alloc(), &[0x00, 0x78, 0xf0], sdlc.digest())?;
    equal(&rt, u64::from(value), 0);
    let mut frame = [0x01, 0x03, 0x78, 0xf0, 0x00];
    let value: u8 = from_bytes_cobs(rt.alloc(), &mut frame, sdlc.digest())?;
    equal(&rt, u64::from(value), 0);
    Ok(())
}

fn whole(alloc: Global, crc: &Crc<u16>, bytes: &[u8]) -> Result<u8, Error> {
    from_bytes_whole(alloc, bytes, crc.digest())
}

#[test]
fn refusals(rt: HostRuntime) {
    let sdlc: Crc<u16> = Crc::new(&CRC_16_IBM_SDLC);
    refused(
        &rt,
        whole(rt.alloc(), &sdlc, &[]),
        Error::DeserializeUnexpectedEnd,
    );
    refused(
        &rt,
        whole(rt.alloc(), &sdlc, &[0x00, 0x78]),
        Error::DeserializeUnexpectedEnd,
    );
    refused(
        &rt,
        whole(rt.alloc(), &sdlc, &[0x00, 0xf0, 0x78]),
        Error::DeserializeBadCrc,
    );
    refused(
        &rt,
        whole(rt.alloc(), &sdlc, &[0x00, 0x78, 0xf0, 0x00]),
        Error::DeserializeBadEncoding,
    );
}

/// CRC-16/XMODEM isn't reflected: both messages pass, and differ only within 13 bits in a row.
#[test]
fn an_unreflected_burst_passes(rt: HostRuntime) -> Result<(), Fail> {
    let xmodem: Crc<u16> = Crc::new(&CRC_16_XMODEM);
    let one: [u8; 9] = from_bytes_whole(rt.alloc(), b"123456789\xc3\x31", xmodem.digest())?;
    let other: [u8; 9] = from_bytes_whole(rt.alloc(), b"123456788\xe2\x21", xmodem.digest())?;
    same(&rt, &one, b"123456789");
    same(&rt, &other, b"123456788");
    Ok(())
}

/// Returns how many of the bursts of up to 8 bits pass in a frame of eight bytes.
fn passing_8(alloc: Global, crc: &Crc<u8>, message: [u8; 7]) -> Result<u64, Error> {
    let mut frame = [0; 8];
    let _ = to_slice(&message, &mut frame, crc.digest())?;
    let sent = u64::from_le_bytes(frame);
    let mut passing: u64 = 0;
    for start in 0..64u32 {
        for pattern in 1..256u64 {
            let came = (sent ^ (pattern << start)).to_le_bytes();
            let read = from_bytes_whole::<[u8; 7], _, _>(alloc, &came, crc.digest());
            if read.is_ok() && u64::from_le_bytes(came) != sent {
                passing = passing.saturating_add(1);
            }
        }
    }
    Ok(passing)
}

/// Returns how many of the bursts of up to 16 bits pass in a frame of eight bytes.
fn passing_16(alloc: Global, crc: &Crc<u16>, message: [u8; 6]) -> Result<u64, Error> {
    let mut frame = [0; 8];
    let _ = to_slice(&message, &mut frame, crc.digest())?;
    let sent = u64::from_le_bytes(frame);
    let mut passing: u64 = 0;
    for start in 0..64u32 {
        for pattern in 1..65536u64 {
            let came = (sent ^ (pattern << start)).to_le_bytes();
            let read = from_bytes_whole::<[u8; 6], _, _>(alloc, &came, crc.digest());
            if read.is_ok() && u64::from_le_bytes(came) != sent {
                passing = passing.saturating_add(1);
            }
        }
    }
    Ok(passing)
}

/// Returns the number after `state` in a sequence by which bursts are sampled (Marsaglia 2003,
/// xorshift).
fn next(state: u64) -> u64 {
    let left = state ^ (state << 13);
    let right = left ^ (left >> 7);
    right ^ (right << 17)
}

/// Returns how many of 64,000 bursts of up to 32 bits pass in a frame of eight bytes.
fn passing_32(alloc: Global, crc: &Crc<u32>, message: [u8; 4]) -> Result<u64, Error> {
    let mut frame = [0; 8];
    let _ = to_slice(&message, &mut frame, crc.digest())?;
    let sent = u64::from_le_bytes(frame);
    let mut passing: u64 = 0;
    let mut state: u64 = 0x9e37_79b9_7f4a_7c15;
    for start in 0..64u32 {
        for _ in 0..1_000u32 {
            state = next(state);
            let came = (sent ^ ((state >> 32) << start)).to_le_bytes();
            let read = from_bytes_whole::<[u8; 4], _, _>(alloc, &came, crc.digest());
            if read.is_ok() && u64::from_le_bytes(came) != sent {
                passing = passing.saturating_add(1);
            }
        }
    }
    Ok(passing)
}

/// Returns how many of 64,000 bursts of up to 64 bits pass in a frame of sixteen bytes.
fn passing_64(alloc: Global, crc: &Crc<u64>, message: [u8; 8]) -> Result<u64, Error> {
    let mut frame = [0; 16];
    let _ = to_slice(&message, &mut frame, crc.digest())?;
    let sent = u128::from_le_bytes(frame);
    let mut passing: u64 = 0;
    let mut state: u64 = 0x9e37_79b9_7f4a_7c15;
    for start in 0..128u32 {
        for _ in 0..500u32 {
            state = next(state);
            let came = (sent ^ (u128::from(state) << start)).to_le_bytes();
            let read = from_bytes_whole::<[u8; 8], _, _>(alloc, &came, crc.digest());
            if read.is_ok() && u128::from_le_bytes(came) != sent {
                passing = passing.saturating_add(1);
            }
        }
    }
    Ok(passing)
}

/// Returns the sixteen bytes of a number, the lowest first, and four zeros.
fn with_zeros(number: u128) -> [u8; 20] {
    let mut bytes = [0; 20];
    bytes[..16].copy_from_slice(&number.to_le_bytes());
    bytes
}

/// Returns how many of 46,000 bursts of up to 82 bits pass in the first sixteen bytes of a frame of
/// twenty. The last bytes of the frame's checksum are zero.
fn passing_82(alloc: Global, crc: &Crc<u128>, message: [u8; 4]) -> Result<u64, Error> {
    let mut frame = [0; 20];
    let _ = to_slice(&message, &mut frame, crc.digest())?;
    let mut front = [0; 16];
    front.copy_from_slice(&frame[..16]);
    let sent = u128::from_le_bytes(front);
    let mut passing: u64 = 0;
    let mut state: u64 = 0x9e37_79b9_7f4a_7c15;
    for start in 0..46u32 {
        for _ in 0..1_000u32 {
            let low = next(state);
            state = next(low);
            let pattern = (u128::from(state >> 46) << 64) | u128::from(low);
            let came = sent ^ (pattern << start);
            let read = from_bytes_whole::<[u8; 4], _, _>(alloc, &with_zeros(came), crc.digest());
            if read.is_ok() && came != sent {
                passing = passing.saturating_add(1);
            }
        }
    }
    Ok(passing)
}

#[test]
fn sampled_bursts_are_refused(rt: HostRuntime) -> Result<(), Fail> {
    let message = [1, 0xff, 0x5a, 0x80];
    let passing = passing_32(rt.alloc(), &Crc::new(&CRC_32_ISO_HDLC), message)?;
    equal(&rt, passing, 0);
    let passing = passing_32(rt.alloc(), &Crc::new(&CRC_32_ISCSI), message)?;
    equal(&rt, passing, 0);
    let longer = [1, 0, 0xff, 0x5a, 7, 0x80, 9, 0];
    let passing = passing_64(rt.alloc(), &Crc::new(&CRC_64_XZ), longer)?;
    equal(&rt, passing, 0);
    let passing = passing_82(rt.alloc(), &Crc::new(&CRC_82_DARC), message)?;
    equal(&rt, passing, 0);
    Ok(())
}

/// Tests bursts at each place of a frame. The bytes of the frame, lowest first, are read as one
/// number, so each burst is a shifted pattern.
#[test]
fn every_burst_is_refused(rt: HostRuntime) -> Result<(), Fail> {
    let message = [1, 0, 0xff, 0x5a, 7, 0x80];
    equal(
        &rt,
        passing_8(
            rt.alloc(),
            &Crc::new(&CRC_8_MAXIM_DOW),
            [1, 0, 0xff, 0x5a, 7, 0x80, 9],
        )?,
        0,
    );
    equal(
        &rt,
        passing_16(rt.alloc(), &Crc::new(&CRC_16_IBM_SDLC), message)?,
        0,
    );
    equal(
        &rt,
        passing_16(rt.alloc(), &Crc::new(&CRC_16_KERMIT), message)?,
        0,
    );
    equal(
        &rt,
        passing_16(rt.alloc(), &Crc::new(&CRC_16_MODBUS), message)?,
        0,
    );
    equal(
        &rt,
        passing_16(rt.alloc(), &Crc::new(&CRC_16_USB), message)?,
        0,
    );
    Ok(())
}
