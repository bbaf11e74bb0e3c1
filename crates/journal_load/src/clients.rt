//! The clients of the journals that are loaded.

ghost use Rattle.std.specs.Prelude.{◌≡◌, ◌<◌, ℕ, IfOk, length, get_or};
ghost use Rattle.account_core.specs.Costs.{cost};
ghost use Rattle.account_core.specs.Numbers.{FitsCap};
ghost use Rattle.account_journal.specs.Histories.{no_limit};

use account_core::Limit;
use cost_num::{CAP, Cost};
use std::alloc::{AllocError, Global};

/// How much each client may spend of a component in a window.
const ALLOWANCE: u64 = 400_000_000_000_000_000;

/// Two clients, of which the second carries over what is left.
const LIMITS: [Limit; 2] = [
    Limit {
        allowance: Cost {
            types: ALLOWANCE,
            fields: ALLOWANCE,
        },
        carry: false,
    },
    Limit {
        allowance: Cost {
            types: ALLOWANCE,
            fields: ALLOWANCE,
        },
        carry: true,
    },
];

/// Their limits.
pub(crate) fn limits(alloc: Global) -> Result<Vec<Limit>, AllocError>
    ensures { IfOk result (λ limits. (k : ℕ) → k < length limits.items → FitsCap (cost CAP CAP) (get_or limits.items k no_limit)) }
{
    Vec::from_slice(alloc, &LIMITS)
}
