//! Numbers that aren't whole, by the bits of their doubles (GraphQL October 2021, 3.5.2).

ghost use Rattle.std.specs.Prelude.{◌≡◌};
ghost use Rattle.input_values.specs.values.Floats.{finite_bits, float_bits};

/// The bits of a double, none of infinity and of what is no number.
pub fn finite_bits(real: f64) -> Option<u64>
    ensures { result ≡ finite_bits real }
{
    if real.is_finite() {
        Some(real.to_bits())
    } else {
        None
    }
}

/// The bits of the double that is nearest to a number as it is written, none where it is past the doubles.
pub fn float_bits(digits: &str) -> Option<u64>
    ensures { result ≡ float_bits digits.now }
{
    match digits.parse::<f64>() {
        Ok(real) => finite_bits(real),
        Err(_) => None,
    }
}
