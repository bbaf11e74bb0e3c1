//! Costs, in whole millionths.
//!
//! A cost has two components, as in the IBM GraphQL Cost Directives Specification: the cost of the
//! types of a response and the cost of its fields. Both are whole numbers of millionths.
#![tactic(auto)]

ghost use Rattle.std.specs.Prelude.{◌≡◌, ℕ, ◌+◌, ◌*◌, ◌<◌, ◌≤◌, ◌↔◌, ◌++◌, length, drop, IsTrue};
ghost use Rattle.cost_num.specs.Capped.{capped};
ghost use Rattle.cost_num.specs.CostText.{amount_text, cost_text};
ghost use Rattle.cost_num.specs.Within.{Within};

pub mod laws;
mod printed;
mod weights;

pub use weights::{WeightFault, read_allowance, read_weight};

/// How many decimal places a weight or an allowance has at most, leaving aside zeros at its end.
pub const PLACES: usize = 6;

/// How many decimal places a printed cost has at least.
pub const LEAST_PLACES: usize = 3;

/// How many of the smallest parts that costs are counted in make up one: ten to the power of
/// `PLACES`.
pub const UNIT: u64 = 1_000_000;

/// The greatest cost that a component may have, in millionths: a million millions.
pub const CAP: u64 = 1_000_000_000_000 * UNIT;

/// The greatest weight, in millionths: a million.
pub const GREATEST_WEIGHT: u64 = 1_000_000 * UNIT;

/// The greatest length of the text of a cost, in bytes.
pub const COST_BYTES: usize = 39;

/// The greatest length of the text of an amount, in bytes.
pub const AMOUNT_BYTES: usize = 19;

/// A type cost and a field cost, each in millionths.
#[derive(Clone, Copy, Debug, PartialEq, Eq)]
pub struct Cost {
    /// The type cost, in millionths.
    pub types: u64,
    /// The field cost, in millionths.
    pub fields: u64,
}

/// The sum of two costs in millionths, or `CAP + 1` where it exceeds `CAP`.
///
/// Each cost is at most `CAP + 1`, so that a sum which is past the cap may be added to.
pub fn add_capped(a: u64, b: u64) -> u64
    requires a_is_capped { a ≤ CAP + 1 }
    requires b_is_capped { b ≤ CAP + 1 }
    ensures { result ≡ capped (a + b) }
{
    (a + b).min(CAP + 1)
}

/// A cost in millionths taken `n` times, or `CAP + 1` where that exceeds `CAP`.
///
/// The cost is at most `CAP + 1`, and `n` may be any number.
pub fn times_capped(a: u64, n: u64) -> u64
    requires { a ≤ CAP + 1 }
    ensures { result ≡ capped (a * n) }
{
    let product = u128::from(a) * u128::from(n);
    product.min(u128::from(CAP + 1)) as u64
}

/// Whether `bound` fits into what is left: both of its components are at most those of `left`.
pub fn covers(left: Cost, bound: Cost) -> bool
    ensures { IsTrue result ↔ Within left bound }
{
    bound.types <= left.types && bound.fields <= left.fields
}

/// Writes the text of a cost at the front of `into`, and gives its length in bytes.
///
/// The text is the type cost, a space and the field cost. Each has three decimal places, and then
/// the fourth to sixth up to the last of these that isn't 0, as in `21.000 7.250001`. The bytes
/// after the text stay as they were.
#[tactic(auto, using(crate::proofs::ShownPlaces::lengths))]
pub fn cost_bytes(cost: Cost, into: &mut [u8; 48]) -> usize
    requires types_in_range { cost.types ≤ CAP }
    requires fields_in_range { cost.fields ≤ CAP }
    ensures end { result ≡ length (cost_text cost) }
    ensures within { result ≤ COST_BYTES }
    ensures written { into.new ≡ cost_text cost ++ drop result into.old }
{
    let space = printed::write_amount(cost.types, into, 0);
    let fields = printed::write_byte(b' ', into, space);
    printed::write_amount(cost.fields, into, fields)
}

/// Writes the text of an amount of millionths at the front of `into`, and gives its length in bytes.
///
/// The text is that of one component of a cost, as in `7.250001`. The bytes after the text stay as they were.
#[tactic(auto, using(crate::proofs::ShownPlaces::lengths))]
pub fn amount_bytes(amount: u64, into: &mut [u8; 24]) -> usize
    requires { amount ≤ CAP }
    ensures end { result ≡ length (amount_text amount) }
    ensures within { result ≤ AMOUNT_BYTES }
    ensures written { into.new ≡ amount_text amount ++ drop result into.old }
{
    printed::write_amount(amount, into, 0)
}
