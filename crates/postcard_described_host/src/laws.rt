//! Laws of device and host. Each law is the contract of a function that does nothing.

ghost use Rattle.std.specs.Prelude.{◌≡◌, ◌++◌, ℕ, List, IfOk};
ghost use Rattle.postcard_described_host.specs.{Agree, HostReads, HostTakes, TakesFromBytes};
ghost use Rattle.postcard_described_host.specs.{Reading, Value, canonical, tree};

use postcard_described::HasSchema;

/// A host that has only the schema reads what a device with the type reads. Both get the same
/// bytes. If the device returns a value, they agree. If the type is exact, they always agree: what
/// the device refuses, the host refuses.
pub fn host_reads<T: HasSchema>()
    ensures agree_on_values { (bytes : List ℕ) (device : Reading T) (host : Reading Value)
        → TakesFromBytes T.shape bytes device → HostTakes T.described.message bytes host
        → IfOk device (λ _. Agree T.shape device host) }
    ensures agree_if_exact { T.described.exact
        → (bytes : List ℕ) (device : Reading T) (host : Reading Value)
        → TakesFromBytes T.shape bytes device → HostTakes T.described.message bytes host
        → Agree T.shape device host }
{}

/// A host that has only the schema reads what a device writes, as a value of the same tree. The
/// type need not be exact. The host leaves the bytes that follow. If it writes the value back, it
/// writes the same bytes.
pub fn host_reads_written<T: HasSchema>()
    ensures same_tree { (v : T) (bytes rest : List ℕ) (host : Reading Value)
        → T.shape.fits v → bytes ≡ canonical (T.shape.tree v) ++ rest
        → HostTakes T.described.message bytes host → HostReads (T.shape.tree v) rest host }
    ensures writes_back { (v : T) (bytes rest : List ℕ) (host : Reading Value)
        → T.shape.fits v → bytes ≡ canonical (T.shape.tree v) ++ rest
        → HostTakes T.described.message bytes host
        → IfOk host (λ read. canonical (tree read.0) ≡ canonical (T.shape.tree v)) }
{}
