//! A law of the histories that are told. This function does nothing: its contract is the law.

ghost use Rattle.std.specs.Prelude.{◌<◌, ℕ, List, length, get_or};
ghost use Rattle.account_core.specs.declared.Limit.{Limit};
ghost use Rattle.account_core.specs.History.{IsLegal, entries_by};
ghost use Rattle.account_core.specs.Sums.{KeepsAllowance};
ghost use Rattle.account_journal.specs.Histories.{no_limit};
ghost use Rattle.journal_serving.specs.Keeping.{Accounted, IsAccounted};

/// The history that accounts have, at the opening of a journal and at its end, is legal for each client, and keeps to its allowance at every
/// moment and in every window: so through all lives of a program that serves over the journal.
pub fn histories_keep_to_allowances()
    ensures legal { (limits : List Limit) (k : Accounted) (client : ℕ) → IsAccounted limits k → client < length limits → IsLegal (get_or limits client no_limit) (entries_by client k.history) }
    ensures keeps { (limits : List Limit) (k : Accounted) (client : ℕ) → IsAccounted limits k → client < length limits → KeepsAllowance (get_or limits client no_limit) (entries_by client k.history) }
{}
