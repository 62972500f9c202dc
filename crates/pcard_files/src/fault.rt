//! What is wrong with a file that a call names.

ghost use Rattle.std.specs.Prelude.{◌≡◌, Some};
ghost use Rattle.pcard_files.specs.{NoMemory, fault_status, fault_text, schema_fault_text};

use postcard_schema_message::Problem;
use postcard_schema_text::TextError;
use postcard_source::FileError;
use std::alloc::AllocError;
use std::fmt;

/// Why the name of a type in a file stands for no type, or a file isn't opened: that is `Unreadable` or
/// `OutOfMemory`.
#[derive(Clone, Copy, Debug, PartialEq, Eq)]
pub enum TypeFault {
    /// The file can't be read.
    Unreadable,
    /// The file has more than 1,048,576 bytes.
    TooLong,
    /// The file is no UTF-8.
    NoText,
    /// The file has no such type, or isn't one of declarations.
    Wrong(FileError),
    /// The file is no schema message and looks like a text. A type that it declares needs its name.
    Unnamed,
    /// The file is no schema message. Its last byte is no zero, or isn't the only one.
    NoSchema(SchemaFault),
    /// The file is no schema message. It ends with its only zero, and is no COBS frame.
    NoFrame(SchemaFault),
    /// The file is a COBS frame, and its data is no schema message.
    NoSchemaInFrame(SchemaFault),
    /// The schema in the file has no type expression.
    NoExpression(TextError),
    /// An allocation failed.
    OutOfMemory,
}

/// Why bytes are no schema message.
#[derive(Clone, Copy, Debug, PartialEq, Eq)]
pub enum SchemaFault {
    /// The bytes begin with no list of nodes, or end inside of it.
    NoNodes,
    /// Bytes follow the list of nodes.
    MoreBytes,
    /// The list of nodes gives no schema.
    Nodes(Problem),
}

impl TypeFault {
    /// Returns the exit status of this fault: 1 for out of memory, and else 2.
    pub fn status(&self) -> u8
        ensures { result ≡ fault_status self.now }
    {
        match self {
            TypeFault::OutOfMemory => 1,
            _ => 2,
        }
    }
}

impl fmt::Display for TypeFault {
    ghost output = { λ fault. Some (fault_text fault) };

    fn fmt<W: fmt::Write>(&self, f: &mut fmt::Formatter<W>) -> fmt::Result {
        match self {
            TypeFault::Unreadable => f.write_str("the file can't be read"),
            TypeFault::TooLong => f.write_str("the file has more than 1048576 bytes"),
            TypeFault::NoText => f.write_str("the file is not UTF-8"),
            TypeFault::Wrong(error) => write!(f, "{error}"),
            TypeFault::Unnamed => f.write_str("name the type, as in @FILE:NAME"),
            TypeFault::NoSchema(fault) => write!(f, "no schema message: {fault}"),
            TypeFault::NoFrame(fault) => {
                write!(f, "no COBS frame, and no schema message: {fault}")
            }
            TypeFault::NoSchemaInFrame(fault) => {
                write!(f, "no schema message in the frame: {fault}")
            }
            TypeFault::NoExpression(error) => write!(f, "no expression of the schema: {error}"),
            TypeFault::OutOfMemory => f.write_str("out of memory"),
        }
    }
}

impl fmt::Display for SchemaFault {
    ghost output = { λ fault. Some (schema_fault_text fault) };

    fn fmt<W: fmt::Write>(&self, f: &mut fmt::Formatter<W>) -> fmt::Result {
        match self {
            SchemaFault::NoNodes => f.write_str("no list of nodes, or not all of it"),
            SchemaFault::MoreBytes => f.write_str("bytes follow it"),
            SchemaFault::Nodes(problem) => write!(f, "{problem}"),
        }
    }
}

impl From<AllocError> for TypeFault {
    ghost from_gives = { λ _ fault. fault ≡ NoMemory };

    fn from(_error: AllocError) -> TypeFault {
        TypeFault::OutOfMemory
    }
}
