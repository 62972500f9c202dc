//! A settings store: settings are saved in memory of a fixed size, and loaded when a radio starts.
//! If the memory holds no settings, because it is erased or damaged, the radio takes the defaults.
#![tactic(auto)]

mod settings;
mod store;

use anyhow::Result;
use arrayvec::ArrayString;
use settings::{SETTINGS_SIZE, Settings};
use store::Memory;

/// Returns the settings in the memory, or the defaults if it holds none, and prints which.
fn start(rt: &(impl Print + AllocGlobal), memory: &Memory) -> Result<Settings> {
    match store::load(rt.alloc(), memory) {
        Ok(settings) => {
            println!(rt; "loaded {settings:?}")?;
            Ok(settings)
        }
        Err(error) => {
            println!(rt; "no settings: {error:?}")?;
            Ok(Settings::default())
        }
    }
}

/// Saves settings, and prints the number of bytes written and the whole memory.
fn save(rt: &impl Print, settings: &Settings, memory: &mut Memory) -> Result<()> {
    let count = store::save(settings, memory)?;
    println!(rt; "saved {count} bytes: {memory:?}")?;
    Ok(())
}

fn main(rt: HostRuntime) -> Result<()> {
    let mut memory = [store::ERASED; SETTINGS_SIZE];

    let mut settings = start(&rt, &memory)?;
    settings.name = ArrayString::from("kitchen")?;
    settings.alarm = Some(6 * 60 + 30);
    save(&rt, &settings, &mut memory)?;

    let mut settings = start(&rt, &memory)?;
    settings.volume = 35;
    save(&rt, &settings, &mut memory)?;
    start(&rt, &memory)?;

    // The first byte of the alarm becomes neither 0 nor 1, so that it is no option.
    memory[9] = 0x21;
    let settings = start(&rt, &memory)?;
    save(&rt, &settings, &mut memory)?;
    start(&rt, &memory)?;
    Ok(())
}
