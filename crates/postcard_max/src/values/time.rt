//! The greatest size of spans of time, 15 bytes: 10 for the seconds, of 64 bits, and 5 for the
//! nanoseconds, of 32.

ghost use Rattle.postcard_max.specs.{exactly, span_lawful};

use crate::max_size::MaxSize;
use std::time::Duration;

impl MaxSize for Duration {
    ghost limit = { exactly 15 };

    fn postcard_max_size() -> Option<usize> {
        Some(15)
    }

    fn in_forms(&self) {
        let _seconds = self.as_secs();
    }

    ghost lawful = { span_lawful };
}
