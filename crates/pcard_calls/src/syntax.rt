//! The command `types`, which prints how a type expression is written.

ghost use Rattle.std.specs.Prelude.{OnOk};
ghost use Rattle.pcard_calls.specs.{Appends};

use std::io;
use std::io::Write;

/// The forms of an expression, each on a line with an example.
pub const SYNTAX: &str = "\
u8 u16 u32 u64 u128 usize   a number without a sign: 42 or 0x2a
i8 i16 i32 i64 i128 isize   a number with a sign: -42 or -0x2a
f32 f64                     a floating-point number: 1.5, 1e30, -0.0, inf or nan
LE<T>, BE<T>                the number T at its full width, low or high byte first, (LE<u16>): 42
bool                        a bool: true
char                        a character: 'x'
str, String                 a string: \"a \\\"b\\\"\\n\"
bytes                       a byte string: 0x00ff
T?, Option<T>               an option, (u8?): None or Some(7)
[T], Vec<T>                 a list, [u16]: [1, 300]
[T; N]                      an array, [u8; 3]: [1, 2, 3]
()                          nothing: ()
(T, U)                      a tuple, (u8, str): (1, \"x\")
(T,)                        a tuple of one part, (u8,): (1,)
{name: T, ..}               a struct, {id: u32, label: str}: {id: 42, label: \"x\"}
{K => V}                    a map, {u8 => bool}: {1 => true}
BTreeMap<K, V>              the same, and so is HashMap<K, V>
A | B(T, U) | C{name: T}    an enum, Boot | Reading(u16, i32) | Fault{code: u8}: Reading(1, -2)
| A(T, U)                   an enum with one variant, | Reading(u16, i32): Reading(1, -2)
Result<T, E>                the enum Ok(T) | Err(E), Result<u8, str>: Ok(7)
Box<T>, &T, &'a T           T itself, as &str for str
Where a type is asked for, an expression begins with ( [ { or &, ends with ? or >, holds |, or is f32 or f64.
So (u8) is the expression u8. HEX may have blanks and 0x, and - reads it from the input.
";

/// Prints how a type expression is written.
pub fn print<W: Write>(output: &mut W) -> io::Result<()>
    ensures { OnOk result (Appends (W.contents output.old) (W.contents output.new)
        SYNTAX.now) }
{
    output.write_all(SYNTAX.as_bytes())
}
