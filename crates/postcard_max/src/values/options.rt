//! The greatest sizes of options and results: 1 byte, and the greatest size of the content.

ghost use Rattle.postcard_max.specs.{option_lawful, option_limit, result_lawful, result_limit};

use crate::max_size::MaxSize;
use crate::sizes::{greater, sum};

impl<T: MaxSize> MaxSize for Option<T> {
    ghost limit = { option_limit T.limit };

    fn postcard_max_size() -> Option<usize> {
        sum(Some(1), T::postcard_max_size())
    }

    fn in_forms(&self) {
        if let Some(value) = self {
            value.in_forms();
        }
    }

    ghost lawful = { option_lawful T.lawful };
}

impl<T: MaxSize, E: MaxSize> MaxSize for Result<T, E> {
    ghost limit = { result_limit T.limit E.limit };

    fn postcard_max_size() -> Option<usize> {
        sum(
            Some(1),
            greater(T::postcard_max_size(), E::postcard_max_size()),
        )
    }

    fn in_forms(&self) {
        match self {
            Ok(value) => value.in_forms(),
            Err(error) => error.in_forms(),
        }
    }

    ghost lawful = { result_lawful T.lawful E.lawful };
}
