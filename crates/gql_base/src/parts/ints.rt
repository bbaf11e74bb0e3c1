//! The range of the scalar `Int`.

ghost use Rattle.std.specs.Prelude.{◌≡◌};
ghost use Rattle.gql_base.specs.parts.Ints.{is_int};

/// Whether a whole number is an `Int`: one of 32 bits with its sign (GraphQL October 2021, 3.5.1).
pub fn is_int(number: i128) -> bool
    ensures { result ≡ is_int number }
{
    -2147483648 <= number && number <= 2147483647
}
