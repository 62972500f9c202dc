//! Writes a value as the string that it prints. A first pass counts the string's bytes, and a
//! second one writes them.

ghost use Rattle.std.specs.Prelude.{◌≡◌, ◌↔◌, ◌+◌, ◌^◌, ◌<◌, length, ⊤, IsOk, OnOk, IfOk, IfErr};
ghost use Rattle.std.specs.Prelude.{IsErrOf, IsUtf8, IfSome};
ghost use Rattle.postcard_ser.specs.{AppendsFront, IsWriteError, Text, Wrote, canonical, digits};

use crate::serializer::Serializer;
use core::mem::replace_with;
use postcard_ser_flavors::Flavor;
use postcard_wire::{Error, Result};
use std::fmt;
use std::fmt::{Display, Formatter, Write};
use std::marker::{Brand, PhantomData};

/// Counts the bytes of the printed text. A count above `usize::MAX` is a formatting error.
#[derive(Drop)]
struct CountWriter {
    count: usize,
}

impl fmt::Write for CountWriter {
    ghost write_str_gives = { λ s x t. (t.count ≡ s.count + length x) × IsUtf8 x };

    fn write_str(&mut self, s: &str) -> fmt::Result
        ensures counts { IsOk result → (self.new.count ≡ self.old.count + length s.now)
            × IsUtf8 s.now }
        ensures fits_iff { IsOk result ↔ (self.old.count + length s.now < 2 ^ 64) }
    {
        match self.count.checked_add(s.as_bytes().len()) {
            Some(count) => {
                self.count = count;
                Ok(())
            }
            None => Err(fmt::Error),
        }
    }
}

/// What holds of a flavor after any number of pushes. The caller of `write_text` chooses it.
trait Lasting<F> {
    ghost lasts: { F → Type 0 };
}

impl<F> Lasting<F> for Brand {
    ghost lasts = { λ _. ⊤ };
}

/// Writes the pieces of the printed text to a flavor. A refused piece is a formatting error.
struct FmtWriter<F: Flavor, K: Lasting<F>> {
    output: F,
    of: PhantomData<K>,
    ghost lasts: { ∥ K.lasts output ∥₁ },
    ghost kept: { ∥ ((s t : F) → K.lasts s → F.Flavor.reaches s t → K.lasts t) ∥₁ },
}

impl<F: Flavor, K: Lasting<F>> fmt::Write for FmtWriter<F, K> {
    ghost write_str_gives = { λ s x t. F.appended s.output x t.output };

    fn write_str(&mut self, s: &str) -> fmt::Result
        ensures appends { IsOk result → F.appended self.old.output s.now self.new.output }
        ensures has_room { F.room self.old.output s.now → IsOk result }
    {
        match self.output.try_extend(s.as_bytes()) {
            Ok(()) => Ok(()),
            Err(_) => Err(fmt::Error),
        }
    }
}

/// Returns the number of bytes that a value prints, or fails if its `Display` does.
fn count_text<T: Display>(value: &T) -> std::result::Result<usize, fmt::Error>
    ensures { IfOk result
        (λ n. IfSome (T.output value.now) (λ u. (n ≡ length u) × IsUtf8 u)) }
{
    let mut writer = CountWriter { count: 0 };
    writer.write(value)?;
    Ok(writer.count)
}

/// Writes what a value prints, and returns the flavor with the result. `lasts` still holds of the
/// flavor.
fn write_text<T: Display, F: Flavor, K: Lasting<F>>(output: F, value: &T) -> (F, fmt::Result)
    requires lasts { K.lasts output }
    requires kept { (s t : F) → K.lasts s → F.Flavor.reaches s t → K.lasts t }
    ensures appends { OnOk result.1
        (IfSome (T.output value.now) (λ u. F.appended output u result.0)) }
    ensures lasts { ∥ K.lasts result.0 ∥₁ }
{
    let writer: FmtWriter<F, K> = FmtWriter {
        output,
        of: PhantomData,
    };
    let mut formatter = Formatter::new(writer);
    let result = formatter.write(value);
    let FmtWriter { output, of: _ } = formatter.into_inner();
    (output, result)
}

/// Does what [`write_text`] does, with a clause that pushes led to the flavor returned.
fn print<T: Display, F: Flavor>(output: F, value: &T) -> (F, fmt::Result)
    ensures appends { OnOk result.1
        (IfSome (T.output value.now) (λ u. F.appended output u result.0)) }
    ensures leaves { F.reaches output result.0 }
{
    write_text::<T, F, Brand>(output, value)
}

impl<F: Flavor> Serializer<F> {
    /// Writes the string that a value prints: the number of its bytes as a varint of 1 to 10 bytes,
    /// and then the bytes. The value is formatted twice, first to count. Both passes must print the
    /// same text, which the prover knows by `output`.
    ///
    /// Fails with `SerializeBufferFull` if the flavor refuses the count. Fails with
    /// `CollectStrError` if formatting fails, if the text is longer than `usize::MAX` bytes, or if
    /// the flavor refuses it. After `CollectStrError` the flavor may have taken the count and some
    /// bytes of the text.
    pub fn collect_str<T: Display>(&mut self, value: &T) -> Result<()>
        ensures writes { IfSome (T.output value.now)
            (λ u. Wrote F.Flavor self.old.output (canonical (Text u))
            (λ e. e ≡ Error.CollectStrError) ⊤ result self.new.output) }
        ensures fits { OnOk result
            (IfSome (T.output value.now) (λ u. IsUtf8 u × (length u < 2 ^ 64))) }
        ensures named_error { IfErr result (IsWriteError ⊤) }
        ensures room_suffices { IfSome (T.output value.now)
            (λ u. F.room self.old.output (digits (length u)) → ¬ IsErrOf result
            Error.SerializeBufferFull) }
        ensures leaves_beginning { IfSome (T.output value.now)
            (λ u. IsErrOf result Error.SerializeBufferFull → F.tidy → AppendsFront F.appended
            self.old.output (digits (length u)) self.new.output) }
        ensures leaves { F.reaches self.old.output self.new.output }
    {
        let Ok(count) = count_text(value) else {
            return Err(Error::CollectStrError);
        };
        self.serialize_u64(count as u64)?;
        match replace_with(&mut self.output, value, print::<T, F>) {
            Ok(()) => Ok(()),
            Err(_) => Err(Error::CollectStrError),
        }
    }
}
