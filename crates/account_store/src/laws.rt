//! Laws of steps and rows. Each is what a function ensures that does nothing.

ghost use Rattle.std.specs.Prelude.{◌≡◌, ℕ, List, [], ◌++◌};
ghost use Rattle.account_core.specs.declared.Limit.{Limit};
ghost use Rattle.account_core.specs.Machine.{Entry};
ghost use Rattle.account_core.specs.History.{grants_by};
ghost use Rattle.account_core.specs.Numbers.{FollowsHistory, KeepsLimit};
ghost use Rattle.account_core.specs.Sums.{open_grants};
ghost use Rattle.account_store.specs.declared.step.Step.{Step};
ghost use Rattle.account_store.specs.Steps.{Rows, no_rows, stepped_by, AreSameRows, recovery_steps};
ghost use Rattle.account_store.specs.Numbers.{AreNumbered, AllNumbersRise, ComesTo};
ghost use Rattle.account_store.specs.Histories.{account_after, rows_after, steps_on, AreLegal, ComeNext, settlings, IsFreeNumber, charged, account_read};

/// Two batches one after the other are one batch of both.
pub fn batches_go_on()
    ensures { (rows : Rows) (these those : List Step) → stepped_by rows (these ++ those) ≡ stepped_by (stepped_by rows these) those }
{}

/// The steps of calls come to the rows of the calls: from those of the history before, or from none, to those of the history with them.
pub fn rows_are_those_of_calls()
    ensures next { (limits : ℕ → Limit) (history more : List Entry) → AreLegal limits history → ComeNext limits history more
        → AreSameRows (stepped_by (rows_after limits history) (steps_on limits history more)) (rows_after limits (history ++ more)) }
    ensures all { (limits : ℕ → Limit) (history : List Entry) → ComeNext limits [] history
        → AreSameRows (stepped_by no_rows (steps_on limits [] history)) (rows_after limits history) }
    ensures legal { (limits : ℕ → Limit) (history more : List Entry) → AreLegal limits history → ComeNext limits history more → AreLegal limits (history ++ more) }
{}

/// The steps of two runs of calls, one behind the other, are the steps of both. So what a keeper has behind a batch, or what a crash leaves of it, is the steps of
/// the history before or of the one with the calls of the batch.
pub fn steps_go_on()
    ensures { (limits : ℕ → Limit) (history these those : List Entry)
        → steps_on limits history (these ++ those) ≡ steps_on limits history these ++ steps_on limits (history ++ these) those }
{}

/// What a crash leaves open is charged at its bound: the account that is recovered from the rows of a history is the one after the client's legal
/// history with a settlement at its bound of each grant that it left open. So it keeps to its limit, and nothing of it is open.
pub fn crashes_charge_bounds()
    ensures follows { (limits : ℕ → Limit) (history : List Entry) (client number : ℕ) → AreLegal limits history → IsFreeNumber number history
        → FollowsHistory (limits client) (charged number history client) (account_read (rows_after limits history) client) }
    ensures closed { (limits : ℕ → Limit) (history : List Entry) (client number : ℕ) → AreLegal limits history → IsFreeNumber number history
        → open_grants (charged number history client) ≡ [] }
    ensures keeps { (limits : ℕ → Limit) (history : List Entry) (client number : ℕ) → AreLegal limits history → IsFreeNumber number history
        → KeepsLimit (limits client) (account_read (rows_after limits history) client) }
{}

/// The steps of a recovery are those of calls: of the settlements at their bounds of what a client left open, which come next after the history. So they lead to
/// the rows of the history with them, and the client's account there is the recovered one.
pub fn recoveries_are_calls()
    ensures next { (limits : ℕ → Limit) (history : List Entry) (client number : ℕ) → AreLegal limits history → IsFreeNumber number history
        → ComeNext limits history (settlings number (grants_by client (open_grants history))) }
    ensures steps { (limits : ℕ → Limit) (history : List Entry) (client number : ℕ)
        → steps_on limits history (settlings number (grants_by client (open_grants history)))
        ≡ recovery_steps ((rows_after limits history).accounts client) (grants_by client (open_grants history)) }
    ensures account { (limits : ℕ → Limit) (history : List Entry) (client number : ℕ) → AreLegal limits history → IsFreeNumber number history
        → account_after limits (history ++ settlings number (grants_by client (open_grants history))) client ≡ account_read (rows_after limits history) client }
{}

/// Where the numbers of calls rise over all clients, a number alone finds a grant. So what a keeper of the steps of a history finds after a crash has the rows of that
/// history.
pub fn numbers_find_grants()
    ensures numbered { (limits : ℕ → Limit) (history : List Entry) → ComeNext limits [] history → AllNumbersRise [] history → AreNumbered no_rows (steps_on limits [] history) }
    ensures found { (limits : ℕ → Limit) (history : List Entry) (found : List Step) → ComeNext limits [] history → AllNumbersRise [] history
        → ComesTo found (steps_on limits [] history) → AreSameRows (stepped_by no_rows found) (rows_after limits history) }
{}
