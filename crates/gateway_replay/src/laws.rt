//! Laws on replays. Each is what a function ensures that does nothing.

ghost use Rattle.std.specs.Prelude.{ℕ, ◌≤◌, List, length};
ghost use Rattle.account_shared.specs.Views.{PassesView, IsIdle};
ghost use Rattle.replay_scripts.specs.Steps.{StepData};
ghost use Rattle.replay_scripts.specs.Scripts.{IsScript};
ghost use Rattle.gateway_core.specs.Rules.{Rules};
ghost use Rattle.gateway_replay.specs.Replays.{Replays, AreFresh, IsOverFresh};
ghost use Rattle.gateway_replay.specs.declared.replayed.Replayed as report_type;

use replay_scripts::LINE_LIMIT;

/// Through the first passes to fresh accounts, which were never split, the calls of a replay are a legal history of each
/// client from its beginning on: nobody else's calls come between. The turns stay those of the replay.
pub fn over_fresh_accounts()
    ensures { (rules : Rules) (before now : PassesView) (script : List StepData) (report : report_type.Replayed) → AreFresh rules before
        → (replay : Replays rules before script report now) → IsOverFresh replay }
{}

/// Through the first passes to fresh accounts no grant is open.
pub fn fresh_accounts_are_idle()
    ensures { (rules : Rules) (first : PassesView) → AreFresh rules first → IsIdle first }
{}

/// A script has at most as many steps as it may have lines.
pub fn scripts_are_short()
    ensures { (text : List ℕ) (steps : List StepData) → IsScript text steps → length steps ≤ LINE_LIMIT }
{}
