//! Records of a tank, which are written to a file and read from it.

ghost use Rattle.std.specs.Prelude.{◌≡◌, ◌≤◌, length, IfOk, OnOk, IsOkAnd};
ghost use Rattle.std.specs.Io.KnownBytes.{Appends, Consumes};
ghost use Rattle.postcard_wire.specs.Spelling.{canonical};
ghost use Rattle.postcard_de_flavors.specs.Source.{Begins};
ghost use Rattle.example_records.specs.declared.record.Record.{Record};

use postcard::de_flavors::Reader;
use postcard::ser_flavors::Flavor;
use postcard::{
    FromRepr, Repr, Result, Serialize, SerializeRepr, Serializer, Shaped, from_io, to_io,
};
use std::alloc::Global;
use std::io::Write;

/// The content of a tank on one day.
#[derive(Debug, Drop, PartialEq)]
pub struct Record<'a> {
    /// The day, counted from 1.
    pub day: u16,
    /// The content in liters.
    pub liters: u32,
    /// A remark.
    pub note: &'a str,
}

impl<'a> Repr for Record<'a> {
    type As = (u16, u32, &'a str);

    ghost repr = { λ v. (v.day, v.liters, v.note) };
}

impl FromRepr for Record<'_> {
    fn from_repr((day, liters, note): Self::As) -> Self {
        Record { day, liters, note }
    }
}

impl SerializeRepr for Record<'_> {
    fn serialize_repr<F: Flavor>(&self, serializer: &mut Serializer<F>) -> Result<()> {
        (self.day, self.liters, self.note).serialize(serializer)
    }
}

/// Appends a record to a file, and returns the file.
///
/// # Errors
///
/// Fails with `SerializeBufferFull` if the file can't be written. The file may then end with a
/// part of the record, which [`read`] doesn't take for a whole one.
pub fn append<W: Write + Drop>(file: W, item: &Record) -> Result<W>
    ensures fits { OnOk result (⟦<Record<'static> as Shaped>⟧.shape.fits item.now) }
    ensures appends { IfOk result (λ after. Appends (W.contents file) (W.contents after)
        (canonical (⟦<Record<'static> as Shaped>⟧.shape.tree item.now))) }
{
    to_io(item, file)
}

/// Reads the next record from a file, and returns the record and the file. The note borrows from
/// `scratch`. Just the bytes of the record are read from the file.
///
/// # Errors
///
/// Fails with `DeserializeUnexpectedEnd` if the record is unfinished, if its note is longer than
/// `scratch`, or if the file can't be read. Fails as `from_bytes` does if the record is damaged.
/// The file is then dropped.
pub fn read<'a, R: Reader + 'a>(
    alloc: Global,
    file: R,
    scratch: &'a mut [u8],
) -> Result<(Record<'a>, R)>
    ensures reads_back { (x : Record) → ⟦<Record<'static> as Shaped>⟧.shape.fits x → R.steady file
        → Begins (R.remaining file) (canonical (⟦<Record<'static> as Shaped>⟧.shape.tree x))
        → length (canonical (⟦<Record<'static> as Shaped>⟧.shape.tree x)) ≤ length scratch.old
        → IsOkAnd result (λ read. (read.0.day ≡ x.day) × (read.0.liters ≡ x.liters)
        × (read.0.note.now ≡ x.note.now)
        × Consumes (R.remaining file) (R.remaining read.1)
        (canonical (⟦<Record<'static> as Shaped>⟧.shape.tree x))) }
{
    let (item, (file, _)) = from_io(alloc, (file, scratch))?;
    Ok((item, file))
}
