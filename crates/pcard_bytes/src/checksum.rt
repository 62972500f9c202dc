//! Checksums by the names that their algorithms have in the catalogue.

ghost use Rattle.std.specs.Prelude.{◌≡◌, ◌≢◌, ℕ, IfErr, IfNone, IfOk, IfSome, IsTrue, ◌↔◌};
ghost use Rattle.pcard_bytes.specs.{HasNoTrailer, IsChecksum, IsCrc, IsTrailer, IsValid};
ghost use Rattle.pcard_bytes.specs.{bytes_for, checksum_name, checksum_text, parameters};
ghost use Rattle.pcard_bytes.specs.{parameters_of, trailer_of};
ghost use Rattle.pcard_bytes.specs.declared.checksum.Checksum.{Checksum};

use arrayvec::ArrayVec;
use crc::{
    Algorithm, CRC_8_MAXIM_DOW, CRC_8_SMBUS, CRC_16_IBM_SDLC, CRC_16_KERMIT, CRC_16_MODBUS,
    CRC_16_USB, CRC_16_XMODEM, CRC_24_OPENPGP, CRC_32_BZIP2, CRC_32_ISCSI, CRC_32_ISO_HDLC,
    CRC_32_MPEG_2, CRC_64_ECMA_182, CRC_64_XZ, CRC_82_DARC, Crc,
};
use postcard_wire::{Error, Result};

/// The lines of the catalogue: the name, the width in bits, and the checksum of the string
/// `123456789`.
pub const CATALOG: &str = "\
CRC-8/SMBUS      8  f4
CRC-8/MAXIM-DOW  8  a1
CRC-16/IBM-SDLC 16  906e
CRC-16/XMODEM   16  31c3
CRC-16/MODBUS   16  4b37
CRC-16/USB      16  b4c8
CRC-16/KERMIT   16  2189
CRC-24/OPENPGP  24  21cf02
CRC-32/ISO-HDLC 32  cbf43926
CRC-32/ISCSI    32  e3069283
CRC-32/BZIP2    32  fc891918
CRC-32/MPEG-2   32  0376e6e7
CRC-64/XZ       64  995dc9bbdf1939fa
CRC-64/ECMA-182 64  6c40df5f0b497347
CRC-82/DARC     82  09ea83f625023801fd612
";

/// A checksum by its algorithm, one of those of the catalogue.
#[derive(Clone, Copy, Debug, PartialEq, Eq)]
pub enum Checksum {
    Crc8Smbus,
    Crc8MaximDow,
    Crc16IbmSdlc,
    Crc16Xmodem,
    Crc16Modbus,
    Crc16Usb,
    Crc16Kermit,
    Crc24Openpgp,
    Crc32IsoHdlc,
    Crc32Iscsi,
    Crc32Bzip2,
    Crc32Mpeg2,
    Crc64Xz,
    Crc64Ecma182,
    Crc82Darc,
}

impl Checksum {
    /// Returns the algorithm with this name, if there is one.
    pub fn from_name(name: &str) -> Option<Checksum>
        ensures found { IfSome result (λ checksum. name.now ≡ checksum_name checksum) }
        ensures none { IfNone result ((checksum : Checksum) → name.now ≢ checksum_name checksum) }
    {
        match name {
            "CRC-8/SMBUS" => Some(Checksum::Crc8Smbus),
            "CRC-8/MAXIM-DOW" => Some(Checksum::Crc8MaximDow),
            "CRC-16/IBM-SDLC" => Some(Checksum::Crc16IbmSdlc),
            "CRC-16/XMODEM" => Some(Checksum::Crc16Xmodem),
            "CRC-16/MODBUS" => Some(Checksum::Crc16Modbus),
            "CRC-16/USB" => Some(Checksum::Crc16Usb),
            "CRC-16/KERMIT" => Some(Checksum::Crc16Kermit),
            "CRC-24/OPENPGP" => Some(Checksum::Crc24Openpgp),
            "CRC-32/ISO-HDLC" => Some(Checksum::Crc32IsoHdlc),
            "CRC-32/ISCSI" => Some(Checksum::Crc32Iscsi),
            "CRC-32/BZIP2" => Some(Checksum::Crc32Bzip2),
            "CRC-32/MPEG-2" => Some(Checksum::Crc32Mpeg2),
            "CRC-64/XZ" => Some(Checksum::Crc64Xz),
            "CRC-64/ECMA-182" => Some(Checksum::Crc64Ecma182),
            "CRC-82/DARC" => Some(Checksum::Crc82Darc),
            _ => None,
        }
    }

    /// Returns the name.
    pub fn name(self) -> &'static str
        ensures { result.now ≡ checksum_name self }
    {
        match self {
            Checksum::Crc8Smbus => "CRC-8/SMBUS",
            Checksum::Crc8MaximDow => "CRC-8/MAXIM-DOW",
            Checksum::Crc16IbmSdlc => "CRC-16/IBM-SDLC",
            Checksum::Crc16Xmodem => "CRC-16/XMODEM",
            Checksum::Crc16Modbus => "CRC-16/MODBUS",
            Checksum::Crc16Usb => "CRC-16/USB",
            Checksum::Crc16Kermit => "CRC-16/KERMIT",
            Checksum::Crc24Openpgp => "CRC-24/OPENPGP",
            Checksum::Crc32IsoHdlc => "CRC-32/ISO-HDLC",
            Checksum::Crc32Iscsi => "CRC-32/ISCSI",
            Checksum::Crc32Bzip2 => "CRC-32/BZIP2",
            Checksum::Crc32Mpeg2 => "CRC-32/MPEG-2",
            Checksum::Crc64Xz => "CRC-64/XZ",
            Checksum::Crc64Ecma182 => "CRC-64/ECMA-182",
            Checksum::Crc82Darc => "CRC-82/DARC",
        }
    }

    /// Returns the number of bits.
    pub fn width(self) -> usize
        ensures { result ≡ (parameters_of self).width }
    {
        match self {
            Checksum::Crc8Smbus | Checksum::Crc8MaximDow => 8,
            Checksum::Crc16IbmSdlc
            | Checksum::Crc16Xmodem
            | Checksum::Crc16Modbus
            | Checksum::Crc16Usb
            | Checksum::Crc16Kermit => 16,
            Checksum::Crc24Openpgp => 24,
            Checksum::Crc32IsoHdlc
            | Checksum::Crc32Iscsi
            | Checksum::Crc32Bzip2
            | Checksum::Crc32Mpeg2 => 32,
            Checksum::Crc64Xz | Checksum::Crc64Ecma182 => 64,
            Checksum::Crc82Darc => 82,
        }
    }

    /// Returns the number of bytes of the trailer: those of the smallest unsigned integer type that
    /// has the bits.
    pub fn trailer_size(self) -> usize
        ensures { result ≡ bytes_for (parameters_of self).width }
    {
        match self.width() {
            0..=8 => 1,
            9..=16 => 2,
            17..=32 => 4,
            33..=64 => 8,
            _ => 16,
        }
    }

    /// Returns the checksum of bytes.
    pub fn of(self, bytes: &[u8]) -> u128
        ensures { IsChecksum self bytes.now result }
    {
        match self {
            Checksum::Crc8Smbus => checksum_in_u8(&CRC_8_SMBUS, bytes),
            Checksum::Crc8MaximDow => checksum_in_u8(&CRC_8_MAXIM_DOW, bytes),
            Checksum::Crc16IbmSdlc => checksum_in_u16(&CRC_16_IBM_SDLC, bytes),
            Checksum::Crc16Xmodem => checksum_in_u16(&CRC_16_XMODEM, bytes),
            Checksum::Crc16Modbus => checksum_in_u16(&CRC_16_MODBUS, bytes),
            Checksum::Crc16Usb => checksum_in_u16(&CRC_16_USB, bytes),
            Checksum::Crc16Kermit => checksum_in_u16(&CRC_16_KERMIT, bytes),
            Checksum::Crc24Openpgp => checksum_in_u32(&CRC_24_OPENPGP, bytes),
            Checksum::Crc32IsoHdlc => checksum_in_u32(&CRC_32_ISO_HDLC, bytes),
            Checksum::Crc32Iscsi => checksum_in_u32(&CRC_32_ISCSI, bytes),
            Checksum::Crc32Bzip2 => checksum_in_u32(&CRC_32_BZIP2, bytes),
            Checksum::Crc32Mpeg2 => checksum_in_u32(&CRC_32_MPEG_2, bytes),
            Checksum::Crc64Xz => checksum_in_u64(&CRC_64_XZ, bytes),
            Checksum::Crc64Ecma182 => checksum_in_u64(&CRC_64_ECMA_182, bytes),
            Checksum::Crc82Darc => checksum_in_u128(&CRC_82_DARC, bytes),
        }
    }

    /// Returns the bytes after the checksum of the message `front`. The bytes `behind`, which come
    /// after the message, begin with the checksum.
    ///
    /// # Errors
    ///
    /// Fails with `DeserializeUnexpectedEnd` if `behind` has fewer bytes than a checksum, and with
    /// `DeserializeBadCrc` if it begins with another.
    pub fn after_trailer<'a>(self, front: &[u8], behind: &'a [u8]) -> Result<&'a [u8]>
        ensures follows { IfOk result (λ rest. IsTrailer self front.now behind.now rest.now) }
        ensures refused { IfErr result (λ e. HasNoTrailer self front.now behind.now e) }
    {
        let size = self.trailer_size();
        if behind.len() < size {
            return Err(Error::DeserializeUnexpectedEnd);
        }
        let trailer = self.of(front).to_le_bytes();
        let (found, rest) = behind.split_at(size);
        if is_same(found, &trailer[..size]) {
            Ok(rest)
        } else {
            Err(Error::DeserializeBadCrc)
        }
    }

    /// Returns the checksum of bytes in hexadecimal digits, one for each four bits of its width, the
    /// highest first.
    pub fn digits(self, bytes: &[u8]) -> ArrayVec<u8, 32>
        ensures { (crc : ℕ) × IsChecksum self bytes.now crc
            × (result.items ≡ checksum_text self crc) }
    {
        let mut room = [0; 32];
        hex::encode_to_slice(self.of(bytes).to_be_bytes(), &mut room).unwrap();
        let mut digits = ArrayVec::new();
        digits
            .try_extend_from_slice(&room[32 - self.width().div_ceil(4)..])
            .unwrap();
        digits
    }

    /// Returns the bytes of a message's checksum, the lowest first, which come after the message.
    pub fn trailer(self, message: &[u8]) -> ArrayVec<u8, 16>
        ensures { (crc : ℕ) × IsChecksum self message.now crc
            × (result.items ≡ trailer_of self crc) }
    {
        let mut trailer = ArrayVec::from(self.of(message).to_le_bytes());
        trailer.truncate(self.trailer_size());
        trailer
    }
}

/// Returns the checksum of bytes by an algorithm of at most 8 bits. The functions below are for
/// wider ones.
fn checksum_in_u8(algorithm: &Algorithm<u8>, bytes: &[u8]) -> u128
    requires { IsValid 8 (parameters (λ n. n) algorithm.now) }
    ensures { IsCrc (parameters (λ n. n) algorithm.now) bytes.now result }
{
    let crc: Crc<u8> = Crc::new(algorithm);
    u128::from(crc.checksum(bytes))
}

fn checksum_in_u16(algorithm: &Algorithm<u16>, bytes: &[u8]) -> u128
    requires { IsValid 16 (parameters (λ n. n) algorithm.now) }
    ensures { IsCrc (parameters (λ n. n) algorithm.now) bytes.now result }
{
    let crc: Crc<u16> = Crc::new(algorithm);
    u128::from(crc.checksum(bytes))
}

fn checksum_in_u32(algorithm: &Algorithm<u32>, bytes: &[u8]) -> u128
    requires { IsValid 32 (parameters (λ n. n) algorithm.now) }
    ensures { IsCrc (parameters (λ n. n) algorithm.now) bytes.now result }
{
    let crc: Crc<u32> = Crc::new(algorithm);
    u128::from(crc.checksum(bytes))
}

fn checksum_in_u64(algorithm: &Algorithm<u64>, bytes: &[u8]) -> u128
    requires { IsValid 64 (parameters (λ n. n) algorithm.now) }
    ensures { IsCrc (parameters (λ n. n) algorithm.now) bytes.now result }
{
    let crc: Crc<u64> = Crc::new(algorithm);
    u128::from(crc.checksum(bytes))
}

fn checksum_in_u128(algorithm: &Algorithm<u128>, bytes: &[u8]) -> u128
    requires { IsValid 128 (parameters (λ n. n) algorithm.now) }
    ensures { IsCrc (parameters (λ n. n) algorithm.now) bytes.now result }
{
    let crc: Crc<u128> = Crc::new(algorithm);
    crc.checksum(bytes)
}

/// Returns whether two slices have the same bytes.
fn is_same(found: &[u8], wanted: &[u8]) -> bool
    ensures { IsTrue result ↔ (found.now ≡ wanted.now) }
{
    *found == *wanted
}
