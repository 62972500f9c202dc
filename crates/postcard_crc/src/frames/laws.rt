//! Laws of frames with a checksum (`specs/FrameLaws.antt`). Each law is the contract of a function
//! that does nothing.

ghost use Rattle.postcard_crc.specs.{DamageRefused, MessageArrives};

use postcard_de::DeserializeOwned;

/// Let a frame have a value that fits, and its checksum. Its own answer is `Success` with a value
/// that equals the first, as far as a contract can tell. If the type allocates, the answer may be
/// `DeserError`.
pub fn message_arrives<T: DeserializeOwned>()
    ensures { MessageArrives T.shape }
{}

/// A frame whose data was damaged has no value as its answer, if the changed bits lie within
/// `width` bits in a row. The algorithm's `refin` and `refout` are true.
pub fn damage_refused<T: DeserializeOwned>()
    ensures { DamageRefused T.shape }
{}
