//! Functions that tell the prover that a floating-point number is a value of its format.

ghost use Rattle.std.specs.Prelude.{◌≡◌, T};
ghost use Rattle.postcard_shape.specs.{binary32, binary64, fits};

/// Returns the same number. The prover doesn't know that a number behind a reference is a value of
/// its format.
pub fn known_f32(x: f32) -> f32
    ensures same { result ≡ x }
    ensures fits { T (fits binary32 x) }
{
    x
}

/// The same of an `f64`.
pub fn known_f64(number: f64) -> f64
    ensures same { result ≡ number }
    ensures fits { T (fits binary64 number) }
{
    number
}
