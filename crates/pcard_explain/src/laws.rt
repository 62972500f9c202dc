//! Laws of rows. Each law is the contract of a function that does nothing.

ghost use Rattle.pcard_explain.specs.{HasCodesOfGroups, PartsAfterValue};

/// The rows of a frame are those of its groups: one for each code byte, and one for the zero at the
/// end.
pub fn codes_of_groups()
    ensures { HasCodesOfGroups }
{}

/// The rows of a value have the bytes of its encoding. The rows of its checksum and of the
/// remaining bytes have the bytes after it.
pub fn parts_after_value()
    ensures { PartsAfterValue }
{}
