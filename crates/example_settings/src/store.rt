//! A store of settings: memory of the greatest size that encoded settings can have, such as a part
//! of a page of flash.

ghost use Rattle.std.specs.Prelude.{◌≡◌, ◌++◌, ℕ, List, IsOk, IsOkAnd};
ghost use Rattle.postcard_shape.specs.Options.{SameOption};
ghost use Rattle.postcard_wire.specs.Spelling.{canonical};

use crate::settings::{SETTINGS_SIZE, Settings};
use postcard::experimental::max_size::laws::within_max_size;
use postcard::{Result, Shaped, fill_slice, from_bytes};
use std::alloc::Global;

/// The memory of a store.
pub type Memory = [u8; SETTINGS_SIZE];

/// The value of a byte that was erased and not written since, as in flash.
pub const ERASED: u8 = 0xFF;

/// Encodes settings into the memory, and returns the number of bytes written. It never fails, since
/// the memory is always large enough.
pub fn save(settings: &Settings, memory: &mut Memory) -> Result<usize>
    ensures enough { IsOk result }
    ensures fits { ⟦<Settings as Shaped>⟧.shape.fits settings.now }
    ensures saved { (rest : List ℕ)
        × (memory.new ≡ canonical (⟦<Settings as Shaped>⟧.shape.tree settings.now) ++ rest) }
{
    within_max_size(settings);
    fill_slice(settings, memory)
}

/// Returns the settings that were saved in the memory.
///
/// # Errors
///
/// Fails as `from_bytes` does if the memory holds no settings.
pub fn load(alloc: Global, memory: &Memory) -> Result<Settings>
    ensures comes_back { (saved : Settings) (rest : List ℕ)
        → ⟦<Settings as Shaped>⟧.shape.fits saved
        → memory.now ≡ canonical (⟦<Settings as Shaped>⟧.shape.tree saved) ++ rest
        → IsOkAnd result (λ loaded. (loaded.name.bytes ≡ saved.name.bytes)
        × (loaded.volume ≡ saved.volume)
        × SameOption (λ a b. a ≡ b) loaded.alarm saved.alarm) }
{
    from_bytes(alloc, memory)
}
