//! What holds of every frame, as contracts of functions that do nothing (`specs/Laws.antt`).

ghost use Rattle.postcard_cobs.specs.{BoundIsReached, DataIsOne, HasNoZero, MadeByLastCode};
ghost use Rattle.postcard_cobs.specs.{MadeDecodes, MadeIsMade, MadeIsOne, MadeLength, OneZero};
ghost use Rattle.postcard_cobs.specs.{OpenByParts, OpenFinishes, OpenLength, ReachesBound};

/// No frame is a frame of two different data.
pub fn data_is_one()
    ensures { DataIsOne }
{}

/// No byte of a frame is zero, and a frame is not empty.
pub fn frame_has_no_zero()
    ensures { HasNoZero }
{}

/// Any data has a made frame.
pub fn made_is_made()
    ensures { MadeIsMade }
{}

/// Any data has only one made frame.
pub fn made_is_one()
    ensures { MadeIsOne }
{}

/// A made frame ends with its only zero.
pub fn one_zero()
    ensures { OneZero }
{}

/// The made frame of `len` bytes is at most `len + len / 254 + 2` bytes long, the zero included.
pub fn made_length()
    ensures { MadeLength }
{}

/// That bound is reached by data of each length: the made frame of data without a zero is that
/// long.
pub fn bound_is_reached()
    ensures at_each_length { BoundIsReached }
    ensures without_zero { ReachesBound }
{}

/// A buffer that begins with the made frame of some data decodes to that data.
pub fn made_decodes()
    ensures { MadeDecodes }
{}

/// An open frame becomes the made frame of its data once its last code is set and a zero is added.
pub fn open_finishes()
    ensures { OpenFinishes }
{}

/// The length of an open frame is the place of its last code plus that code.
pub fn open_length()
    ensures { OpenLength }
{}

/// A frame with a zero added is the made frame of its data if and only if its last code isn't 255.
pub fn made_by_last_code()
    ensures { MadeByLastCode }
{}

/// A list is an open frame if and only if groups come before the place of its last code, and the
/// list with that code set is a frame of the data.
pub fn open_by_parts()
    ensures { OpenByParts }
{}
