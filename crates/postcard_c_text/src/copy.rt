//! Bytes copied out to the caller's buffer.

ghost use Rattle.std.specs.Prelude.{◌≡◌, ◌⊎◌};
ghost use Rattle.postcard_c_text.specs.{CopiesOut};

use postcard_wire::status::BUFFER_FULL;

/// Copies bytes to the front of a buffer, and their number to `count`. Fails with the status 2 if
/// and only if they have no room. The buffer is then unchanged, and `count` is the size that it
/// would need.
pub(crate) fn copy_out(bytes: &[u8], buffer: &mut [u8], count: &mut usize) -> u32
    ensures copies { CopiesOut bytes.now buffer.old buffer.new count.new result }
    ensures full_or_not { (result ≡ 0) ⊎ (result ≡ 2) }
{
    let size = bytes.len();
    *count = size;
    if size > buffer.len() {
        return BUFFER_FULL;
    }
    buffer[..size].copy_from_slice(bytes);
    0
}
