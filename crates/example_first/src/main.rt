//! The first program of docs/TYPES.md, an enum and a struct, as a crate of its own.
#![tactic(auto)]

mod first;

fn main(rt: HostRuntime) -> anyhow::Result<()> {
    first::show(&rt)
}
