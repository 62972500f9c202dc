//! How many bytes the messages of a type have: the command `size`.

ghost use Rattle.std.specs.Prelude.{◌≡◌, ◌++◌, ◌∷◌, [], ◌≤◌, ◌^◌, IfErr, OnOk, Some, map};
ghost use Rattle.pcard_calls.specs.{Appends, PrintsSize, SizeFails, bounded_text, endless_text};
ghost use Rattle.pcard_calls.specs.{first_text, least_number, others_text, parts_text, plain_path};
ghost use Rattle.pcard_calls.specs.{span_text};

use pcard_message::{Failure, schema_of};
use postcard_schema::Path;
use postcard_schema_size::{endless_parts, max_size, min_size};
use std::alloc::Global;
use std::io::Write;
use std::{fmt, io};

/// Prints the least and the greatest number of bytes of a message of the type, and of its frame, on
/// a line. If there is no greatest number, prints the paths of the parts that have none. Fails as
/// [`schema_of`] does.
pub fn print<W: Write>(
    alloc: Global,
    expression: &str,
    output: &mut W,
) -> Result<(), Failure<'static>>
    ensures printed { OnOk result (PrintsSize expression.now (W.contents output.old)
        (W.contents output.new)) }
    ensures refused { IfErr result (SizeFails expression.now) }
{
    let schema = schema_of(alloc, expression)?;
    let least = min_size(&schema);
    let Some(greatest) = max_size(&schema) else {
        let parts = endless_parts(alloc, &schema)?;
        print_endless(least, &parts, output)?;
        return Ok(());
    };
    print_bounded(least, greatest, output)?;
    Ok(())
}

fn print_bounded<W: Write>(least: Option<usize>, greatest: usize, output: &mut W) -> io::Result<()>
    ensures { OnOk result (Appends (W.contents output.old) (W.contents output.new)
        (bounded_text (least_number least) greatest ++ 10 ∷ [])) }
{
    let least = number_of(least);
    let greatest = greatest as u128;
    let bytes = Span(least, greatest);
    let frame = Span(least + 2, greatest + greatest / 254 + 2);
    writeln!(output, "bytes: {bytes}, as a frame {frame}")
}

/// Returns the number of a least size: 2^64, which no size exceeds, if there is none.
fn number_of(least: Option<usize>) -> u128
    ensures number { result ≡ least_number least }
    ensures small { result ≤ 2 ^ 64 }
{
    match least {
        Some(least) => least as u128,
        None => 0x1_0000_0000_0000_0000,
    }
}

/// A least and a greatest number.
#[derive(Clone, Copy)]
struct Span(u128, u128);

impl fmt::Display for Span {
    ghost output = { λ span. Some (span_text span.0 span.1) };

    fn fmt<W: fmt::Write>(&self, f: &mut fmt::Formatter<W>) -> fmt::Result {
        let (least, greatest) = (self.0, self.1);
        if least == greatest {
            return write!(f, "{least}");
        }
        write!(f, "{least} to {greatest}")
    }
}

fn print_endless<W: Write>(
    least: Option<usize>,
    parts: &[Path<'_>],
    output: &mut W,
) -> io::Result<()>
    ensures { OnOk result (Appends (W.contents output.old) (W.contents output.new)
        (endless_text (least_number least) (map plain_path parts.now) ++ 10 ∷ [])) }
{
    let least = number_of(least);
    write!(output, "bytes: at least {least}, no greatest number")?;
    print_parts(parts, output)?;
    output.write_all(b"\n")
}

/// Prints the paths of parts, or, if there are none, the number that the greatest number exceeds.
fn print_parts<W: Write>(parts: &[Path<'_>], output: &mut W) -> io::Result<()>
    ensures { OnOk result (Appends (W.contents output.old) (W.contents output.new)
        (parts_text (map plain_path parts.now))) }
{
    let Some((first, others)) = parts.split_first() else {
        return output.write_all(b" below 2^64");
    };
    print_first(first, output)?;
    print_others(others, output)
}

fn print_first<W: Write>(part: &Path<'_>, output: &mut W) -> io::Result<()>
    ensures { OnOk result (Appends (W.contents output.old) (W.contents output.new)
        (first_text (plain_path part.now))) }
{
    if part.steps.is_empty() {
        return output.write_all(b": the value");
    }
    write!(output, ": {part}")
}

fn print_others<W: Write>(parts: &[Path<'_>], output: &mut W) -> io::Result<()>
    ensures { OnOk result (Appends (W.contents output.old) (W.contents output.new)
        (others_text (map plain_path parts.now))) }
{
    for part in parts {
        write!(output, ", {part}")?;
    }
    Ok(())
}
