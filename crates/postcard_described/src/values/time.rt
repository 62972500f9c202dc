//! The schemas of times: a struct of seconds and nanoseconds, named as serde names them.

ghost use Rattle.postcard_described.specs.{alike, no_parts, of_integer, of_parts, of_some};
ghost use Rattle.postcard_described.specs.{part_then, span_parts};
ghost use Rattle.postcard_schema.specs.declared.leaf.Integer.TheVariants as integers;
ghost use Rattle.postcard_shape.specs.Only.{only};
ghost use Rattle.postcard_shape.specs.Spans.{IsSpan, span_of_time};
ghost use Rattle.std.specs.Duration.{as_nanos};
ghost use Rattle.std.specs.Time.{FitsClock};

use crate::rows::parts_schema;
use crate::schema::HasSchema;
use postcard_schema::Schema;
use postcard_shape::Part;
use postcard_wire::Result;
use std::alloc::Global;
use std::time::{Duration, SystemTime};

impl HasSchema for Duration {
    ghost described = { of_some IsSpan (of_parts (part_then (of_integer integers.U64)
        (part_then (of_integer integers.U32) no_parts))) span_parts };

    fn schema_with(alloc: Global, _names: &[&str]) -> Result<Schema> {
        parts_schema::<Part<u64, Part<u32, ()>>>(alloc, &["secs", "nanos"])
    }

    ghost same = { alike };
}

/// A time before 1970 is not written. A time that the clock can't hold is refused.
impl HasSchema for SystemTime {
    ghost described = { of_some (only (λ d. FitsClock (as_nanos d)) span_of_time).reads
        (of_parts (part_then (of_integer integers.U64) (part_then (of_integer integers.U32) no_parts)))
        (λ t r. span_parts t r.0) };

    fn schema_with(alloc: Global, _names: &[&str]) -> Result<Schema> {
        <(u64, u32)>::schema_with(alloc, &["secs_since_epoch", "nanos_since_epoch"])
    }

    ghost same = { alike };
}
