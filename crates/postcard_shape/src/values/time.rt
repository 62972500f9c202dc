//! The shapes of spans and points of time.

ghost use Rattle.postcard_shape.specs.{point_of_time, span_of_time};

use crate::shape::Shaped;
use std::time::{Duration, SystemTime};

impl Shaped for Duration {
    ghost shape = { span_of_time };
}

/// The span since the beginning of 1970, of fewer than 2^63 seconds. A point of time beyond that
/// refuses itself; no call of std makes one.
impl Shaped for SystemTime {
    ghost shape = { point_of_time };
}
