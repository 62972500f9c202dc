//! Algorithms by their names in Greg Cook's catalogue of parametrised CRC algorithms.
//! [`Algorithm`] says what each field is.
//!
//! In the checked messages of [`laws`](crate::laws) and of `postcard` the checksum follows the
//! message lowest byte first. Take an algorithm there whose `refin` and `refout` are true. It sees
//! every burst of at most `width` changed bits in a row, also across the end of the message. The
//! others are marked as not reflected.

ghost use Rattle.std.specs.Prelude.{◌-◌, ◌^◌};
ghost use Rattle.crc.specs.{HasOrderOf, IsListed};

use crate::algorithm::Algorithm;

/// CRC-8/SMBUS: the system management bus.
pub const CRC_8_SMBUS: Algorithm<u8> = Algorithm {
    width: 8,
    poly: 0x07,
    init: 0x00,
    refin: false,
    refout: false,
    xorout: 0x00,
    check: 0xf4,
    residue: 0x00,
};

/// CRC-8/MAXIM-DOW: 1-Wire devices.
pub const CRC_8_MAXIM_DOW: Algorithm<u8> = Algorithm {
    width: 8,
    poly: 0x31,
    init: 0x00,
    refin: true,
    refout: true,
    xorout: 0x00,
    check: 0xa1,
    residue: 0x00,
};

/// CRC-16/IBM-SDLC: HDLC, X.25 and PPP.
pub const CRC_16_IBM_SDLC: Algorithm<u16> = Algorithm {
    width: 16,
    poly: 0x1021,
    init: 0xffff,
    refin: true,
    refout: true,
    xorout: 0xffff,
    check: 0x906e,
    residue: 0xf0b8,
};

/// CRC-16/XMODEM: file transfer by XMODEM. Not reflected.
pub const CRC_16_XMODEM: Algorithm<u16> = Algorithm {
    width: 16,
    poly: 0x1021,
    init: 0x0000,
    refin: false,
    refout: false,
    xorout: 0x0000,
    check: 0x31c3,
    residue: 0x0000,
};

/// CRC-16/MODBUS: Modbus over serial lines.
pub const CRC_16_MODBUS: Algorithm<u16> = Algorithm {
    width: 16,
    poly: 0x8005,
    init: 0xffff,
    refin: true,
    refout: true,
    xorout: 0x0000,
    check: 0x4b37,
    residue: 0x0000,
};

/// CRC-16/USB: data packets of USB.
pub const CRC_16_USB: Algorithm<u16> = Algorithm {
    width: 16,
    poly: 0x8005,
    init: 0xffff,
    refin: true,
    refout: true,
    xorout: 0xffff,
    check: 0xb4c8,
    residue: 0xb001,
};

/// CRC-16/KERMIT: file transfer by Kermit, and V.41.
pub const CRC_16_KERMIT: Algorithm<u16> = Algorithm {
    width: 16,
    poly: 0x1021,
    init: 0x0000,
    refin: true,
    refout: true,
    xorout: 0x0000,
    check: 0x2189,
    residue: 0x0000,
};

/// CRC-24/OPENPGP: armored messages of OpenPGP. Not reflected.
pub const CRC_24_OPENPGP: Algorithm<u32> = Algorithm {
    width: 24,
    poly: 0x86_4cfb,
    init: 0xb7_04ce,
    refin: false,
    refout: false,
    xorout: 0x00_0000,
    check: 0x21_cf02,
    residue: 0x00_0000,
};

/// CRC-32/ISO-HDLC: Ethernet, ZIP and PNG; often called just CRC-32.
pub const CRC_32_ISO_HDLC: Algorithm<u32> = Algorithm {
    width: 32,
    poly: 0x04c1_1db7,
    init: 0xffff_ffff,
    refin: true,
    refout: true,
    xorout: 0xffff_ffff,
    check: 0xcbf4_3926,
    residue: 0xdebb_20e3,
};

/// CRC-32/ISCSI: iSCSI, SCTP and ext4; also called CRC-32C.
pub const CRC_32_ISCSI: Algorithm<u32> = Algorithm {
    width: 32,
    poly: 0x1edc_6f41,
    init: 0xffff_ffff,
    refin: true,
    refout: true,
    xorout: 0xffff_ffff,
    check: 0xe306_9283,
    residue: 0xb798_b438,
};

/// CRC-32/BZIP2: bzip2. Not reflected.
pub const CRC_32_BZIP2: Algorithm<u32> = Algorithm {
    width: 32,
    poly: 0x04c1_1db7,
    init: 0xffff_ffff,
    refin: false,
    refout: false,
    xorout: 0xffff_ffff,
    check: 0xfc89_1918,
    residue: 0xc704_dd7b,
};

/// CRC-32/MPEG-2: transport streams of MPEG-2. Not reflected.
pub const CRC_32_MPEG_2: Algorithm<u32> = Algorithm {
    width: 32,
    poly: 0x04c1_1db7,
    init: 0xffff_ffff,
    refin: false,
    refout: false,
    xorout: 0x0000_0000,
    check: 0x0376_e6e7,
    residue: 0x0000_0000,
};

/// CRC-64/XZ: the format xz.
pub const CRC_64_XZ: Algorithm<u64> = Algorithm {
    width: 64,
    poly: 0x42f0_e1eb_a9ea_3693,
    init: 0xffff_ffff_ffff_ffff,
    refin: true,
    refout: true,
    xorout: 0xffff_ffff_ffff_ffff,
    check: 0x995d_c9bb_df19_39fa,
    residue: 0x4995_8c9a_bd7d_353f,
};

/// CRC-64/ECMA-182: tape cartridges. Not reflected.
pub const CRC_64_ECMA_182: Algorithm<u64> = Algorithm {
    width: 64,
    poly: 0x42f0_e1eb_a9ea_3693,
    init: 0x0000_0000_0000_0000,
    refin: false,
    refout: false,
    xorout: 0x0000_0000_0000_0000,
    check: 0x6c40_df5f_0b49_7347,
    residue: 0x0000_0000_0000_0000,
};

/// CRC-82/DARC: data radio channels.
pub const CRC_82_DARC: Algorithm<u128> = Algorithm {
    width: 82,
    poly: 0x0_308c_0111_0114_0144_0411,
    init: 0x0_0000_0000_0000_0000_0000,
    refin: true,
    refout: true,
    xorout: 0x0_0000_0000_0000_0000_0000,
    check: 0x0_9ea8_3f62_5023_801f_d612,
    residue: 0x0_0000_0000_0000_0000_0000,
};

/// How far apart two changed bits have to be to pass: the order of x modulo the generator of each
/// entry is at least this ([`two_in_message`](crate::laws::two_in_message), and of a reflected
/// entry [`two_in_checked`](crate::laws::two_in_checked)).
pub fn orders()
    ensures crc_8_smbus { HasOrderOf 127 CRC_8_SMBUS }
    ensures crc_8_maxim_dow { HasOrderOf 127 CRC_8_MAXIM_DOW }
    ensures crc_16_ibm_sdlc { HasOrderOf 32767 CRC_16_IBM_SDLC }
    ensures crc_16_xmodem { HasOrderOf 32767 CRC_16_XMODEM }
    ensures crc_16_modbus { HasOrderOf 32767 CRC_16_MODBUS }
    ensures crc_16_usb { HasOrderOf 32767 CRC_16_USB }
    ensures crc_16_kermit { HasOrderOf 32767 CRC_16_KERMIT }
    ensures crc_24_openpgp { HasOrderOf (2 ^ 23 - 1) CRC_24_OPENPGP }
    ensures crc_32_iso_hdlc { HasOrderOf (2 ^ 32 - 1) CRC_32_ISO_HDLC }
    ensures crc_32_iscsi { HasOrderOf (2 ^ 31 - 1) CRC_32_ISCSI }
    ensures crc_32_bzip2 { HasOrderOf (2 ^ 32 - 1) CRC_32_BZIP2 }
    ensures crc_32_mpeg_2 { HasOrderOf (2 ^ 32 - 1) CRC_32_MPEG_2 }
    ensures crc_64_xz { HasOrderOf 8589606914 CRC_64_XZ }
    ensures crc_64_ecma_182 { HasOrderOf 8589606914 CRC_64_ECMA_182 }
    ensures crc_82_darc { HasOrderOf 273 CRC_82_DARC }
{}

/// The fields `check` and `residue` of each entry are what the catalogue means by these words:
/// computed from the parameters, and for `residue` the same after every message with its checksum.
pub fn listed()
    ensures crc_8_smbus { IsListed CRC_8_SMBUS }
    ensures crc_8_maxim_dow { IsListed CRC_8_MAXIM_DOW }
    ensures crc_16_ibm_sdlc { IsListed CRC_16_IBM_SDLC }
    ensures crc_16_xmodem { IsListed CRC_16_XMODEM }
    ensures crc_16_modbus { IsListed CRC_16_MODBUS }
    ensures crc_16_usb { IsListed CRC_16_USB }
    ensures crc_16_kermit { IsListed CRC_16_KERMIT }
    ensures crc_24_openpgp { IsListed CRC_24_OPENPGP }
    ensures crc_32_iso_hdlc { IsListed CRC_32_ISO_HDLC }
    ensures crc_32_iscsi { IsListed CRC_32_ISCSI }
    ensures crc_32_bzip2 { IsListed CRC_32_BZIP2 }
    ensures crc_32_mpeg_2 { IsListed CRC_32_MPEG_2 }
    ensures crc_64_xz { IsListed CRC_64_XZ }
    ensures crc_64_ecma_182 { IsListed CRC_64_ECMA_182 }
    ensures crc_82_darc { IsListed CRC_82_DARC }
{}
