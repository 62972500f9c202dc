//! The command `crc`.

ghost use Rattle.std.specs.Prelude.{IfErr, OnOk};
ghost use Rattle.pcard_calls.specs.{Appends, CATALOG, ChecksumFails, PrintsChecksum, READS};

use pcard_bytes::checksum::CATALOG;
use pcard_bytes::read_hex;
use pcard_message::{Failure, checksum_of};
use postcard_de_flavors::Reader;
use std::alloc::Global;
use std::io;
use std::io::Write;

/// Prints the checksum of the bytes of HEX by the algorithm with this name, on a line.
///
/// # Errors
///
/// Fails as [`checksum_of`] and [`read_hex`] do, and with `Output`.
pub fn print<'a, R: Reader, W: Write>(
    alloc: Global,
    name: &'a str,
    hex: &str,
    input: &mut R,
    output: &mut W,
) -> Result<(), Failure<'a>>
    ensures printed { OnOk result (PrintsChecksum name.now hex.now (R.remaining input.old)
        (R.remaining input.new) (W.contents output.old) (W.contents output.new)) }
    ensures refused { IfErr result (ChecksumFails READS (R.steady input.old) name.now hex.now
        (R.remaining input.old) (R.remaining input.new)) }
{
    let checksum = checksum_of(name)?;
    let bytes = read_hex(alloc, hex, input)?;
    output.write_all(&checksum.digits(&bytes))?;
    output.write_all(b"\n")?;
    Ok(())
}

/// Prints the catalogue.
pub fn print_catalog<W: Write>(output: &mut W) -> io::Result<()>
    ensures { OnOk result (Appends (W.contents output.old) (W.contents output.new)
        CATALOG.now) }
{
    output.write_all(CATALOG.as_bytes())
}
