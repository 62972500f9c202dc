//! Elements of a list whose bytes are in memory: read many at a time.

ghost use Rattle.std.specs.Prelude.{◌≡◌, IfErr, IfOk, MatchBool};
ghost use Rattle.postcard_de_nodes.specs.{ReadsMore, or_memory};

use postcard_de_flavors::Flavor;
use postcard_shape::Shaped;
use postcard_wire::{Error, Result};

/// How many elements are read one by one before reading many is tried again. If fewer than twice as
/// many are left, all are read one by one.
const PAUSE: usize = 16;

/// Reads some of the next elements of a list at once, at most `most` of them, and appends them to
/// `items`. It can do so if the source has them in memory ([`Flavor::at_hand`]) and the type takes
/// them from there ([`Shaped::append_at_hand`]). Returns whether it did; if not, nothing is taken,
/// and the caller reads the next element.
///
/// `pause` is 0 before the first call for a list, and then what the last call left: how many
/// elements are to be read one by one before the next try. Fails with `OutOfMemory` if the
/// allocation fails, and takes nothing then.
#[inline(always)]
pub fn append_at_hand<T: Shaped + Drop, F: Flavor>(
    items: &mut Vec<T>,
    flavor: &mut F,
    most: usize,
    pause: &mut usize,
) -> Result<bool>
    ensures reads { IfOk result (λ some. MatchBool some
        (ReadsMore F.Flavor T.shape.reads T.shape.value (or_memory T.shape.other) most
        items.old.items items.new.items flavor.old flavor.new)
        ((items.new.items ≡ items.old.items) × (flavor.new ≡ flavor.old))) }
    ensures refused { IfErr result (λ e. (e ≡ Error.OutOfMemory) × (flavor.new ≡ flavor.old)) }
{
    if *pause > 0 {
        *pause -= 1;
        return Ok(false);
    }
    let at_hand = flavor.at_hand();
    match T::append_at_hand(items, at_hand, most)? {
        Some(len) => {
            flavor.try_take_n_temp(len)?;
            Ok(true)
        }
        None => {
            *pause = if most < 2 * PAUSE { most } else { PAUSE - 1 };
            Ok(false)
        }
    }
}
