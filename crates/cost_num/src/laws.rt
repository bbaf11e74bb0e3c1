//! What the definitions of this crate say by themselves, with no code.

ghost use Rattle.std.specs.Prelude.{◌≡◌, ℕ, ◌≤◌, List, Result, codes};
ghost use Rattle.cost_num.specs.declared.weights.WeightFault.{WeightFault};
ghost use Rattle.cost_num.specs.Amount.{IsAmount, Reads, Spells, amount_in};
ghost use Rattle.cost_num.specs.CostText.{amount_text};

use crate::{CAP, Cost, GREATEST_WEIGHT, LEAST_PLACES, PLACES, UNIT, WeightFault};

/// Each text is read in exactly one way: as one amount in range, or as one first fault with its
/// place, whatever the greatest amount is.
pub fn each_text_has_one_reading()
    ensures at_least_one { (greatest : ℕ) (text : List ℕ) → (result : Result ℕ WeightFault) × Reads greatest text result }
    ensures at_most_one { (greatest : ℕ) (text : List ℕ) (one other : Result ℕ WeightFault) → Reads greatest text one → Reads greatest text other → one ≡ other }
{}

/// A text that spells an amount spells the one that a function of the text gives.
pub fn spelled_amounts()
    ensures { (text : List ℕ) (amount : ℕ) → Spells text amount → amount ≡ amount_in text }
{}

/// A printed amount is read back as that amount: the text of each amount of at most `CAP` is that
/// of an allowance, and spells it.
pub fn printed_amounts_are_read_back()
    ensures { (amount : ℕ) → amount ≤ CAP → IsAmount CAP (amount_text amount) amount }
{}

/// Three decimal places are always printed, and the fourth to sixth up to the last that isn't 0.
pub fn worked_amounts()
    ensures none { amount_text 0 ≡ codes "0.000" }
    ensures third { amount_text 7250000 ≡ codes "7.250" }
    ensures fourth { amount_text 1234500 ≡ codes "1.2345" }
    ensures fifth { amount_text 7000010 ≡ codes "7.00001" }
    ensures sixth { amount_text 1 ≡ codes "0.000001" }
{}

/// The numbers that definitions take from the code: costs are counted in millionths, a weight is at most a million
/// and a cost a million millions; a cost shows at least three of its six decimal places.
pub fn numbers_of_costs()
    ensures unit { UNIT ≡ 1000000 }
    ensures cap { CAP ≡ 1000000000000000000 }
    ensures greatest_weight { GREATEST_WEIGHT ≡ 1000000000000 }
    ensures places { PLACES ≡ 6 }
    ensures least_places { LEAST_PLACES ≡ 3 }
{}

/// Threads may share costs and the faults of weights.
pub fn costs_are_shared() {
    is_shared::<Cost>();
    is_shared::<WeightFault>();
}

fn is_shared<T: Send + Sync>() {}
