//! Messages of the old type that may show how the new one reads it: [`candidates`].

mod make;

use crate::change::{Difference, Turn};
use crate::example::encoded;
use make::{FILLS, Fill, Maker, TELLING, make};
use postcard_schema::Schema;
use std::alloc::{AllocError, Global};

/// How many messages are made at random.
const TRIES: usize = 1_000;

/// The greatest number of parts of a message, and of its bytes.
const ROOM: usize = 1 << 16;

/// How much is made in all: the bytes of the messages, and 64 for each.
const COST: usize = 1 << 19;

/// Messages of a type, by their bytes.
#[derive(Drop)]
pub struct Messages {
    /// The messages.
    pub messages: Vec<Vec<u8>>,
    /// How many of them lead to a difference. The others are pseudo-random, and come last.
    pub directed: usize,
    /// How much was made so far.
    cost: usize,
}

/// Returns messages of a flattened old type: those that lead to a difference, with telling values
/// there, and pseudo-random ones. Moved names come first. Each call returns the same.
///
/// # Errors
///
/// Fails if an allocation fails.
pub fn candidates(
    alloc: Global,
    old: &Schema,
    differences: &Vec<Difference>,
) -> Result<Messages, AllocError> {
    let mut found = Messages {
        messages: Vec::new(alloc),
        directed: 0,
        cost: 0,
    };
    let mut maker = Maker {
        alloc,
        random: 1,
        fill: Fill::Least,
        telling: 0,
        room: 0,
    };
    for difference in differences {
        if difference.what.is_move() {
            add_directed(&mut maker, old, &difference.steps, &mut found)?;
        }
    }
    for difference in differences {
        if !difference.what.is_move() {
            add_directed(&mut maker, old, &difference.steps, &mut found)?;
        }
    }
    found.directed = found.messages.len();
    for _ in 0..TRIES {
        maker.fill = Fill::Random;
        add(&mut maker, old, None, &mut found)?;
    }
    Ok(found)
}

/// Adds messages with each telling value at the end of the way.
fn add_directed(
    maker: &mut Maker,
    old: &Schema,
    steps: &Vec<Turn>,
    found: &mut Messages,
) -> Result<(), AllocError> {
    for telling in 0..TELLING {
        for fill in FILLS {
            maker.telling = telling;
            maker.fill = fill;
            add(maker, old, Some(steps.as_slice()), found)?;
        }
    }
    Ok(())
}

/// Adds a message. Does nothing if the message is too long, or if enough messages are made.
fn add(
    maker: &mut Maker,
    old: &Schema,
    way: Option<&[Turn]>,
    found: &mut Messages,
) -> Result<(), AllocError> {
    if found.cost >= COST {
        return Ok(());
    }
    maker.room = ROOM;
    let Some(value) = make(maker, old, way)? else {
        found.cost = COST;
        return Ok(());
    };
    let bytes = encoded(maker.alloc, &value)?;
    if bytes.len() <= ROOM {
        found.cost = found.cost.saturating_add(bytes.len()).saturating_add(64);
        found.messages.push(bytes)?;
    }
    Ok(())
}
