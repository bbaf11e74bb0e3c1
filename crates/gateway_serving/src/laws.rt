//! Laws of what serving comes to. Each is what a function ensures that does nothing.

ghost use Rattle.std.specs.Prelude.{◌≡◌, ℕ, List};
ghost use Rattle.doors.specs.Starts.{Stopped};
ghost use Rattle.gateway_workers.specs.Decisions.{Service};
ghost use Rattle.gateway_serving.specs.declared.ending.ServeEnd as end_type;
ghost use Rattle.gateway_serving.specs.StoppedTours.{given_by};
ghost use Rattle.gateway_serving.specs.Ends.{EndsServing, TellsFaults, IsWholeIfCalm};

/// The connections that were served are those that the doors gave.
pub fn connections_are_those_of_the_doors()
    ensures { (s : Service) (workers connections : ℕ) (stopped : List Stopped) (end : end_type.ServeEnd)
        → EndsServing s workers connections stopped end → end.done.connections ≡ given_by stopped }
{}

/// Faults are told exactly where the count of a door rose.
pub fn faults_are_those_of_the_doors()
    ensures { (s : Service) (workers connections : ℕ) (stopped : List Stopped) (end : end_type.ServeEnd)
        → EndsServing s workers connections stopped end → TellsFaults stopped end }
{}

/// Where no faults are told each worker served all of its connections.
pub fn calm_ends_are_whole()
    ensures { (s : Service) (workers connections : ℕ) (stopped : List Stopped) (end : end_type.ServeEnd)
        → EndsServing s workers connections stopped end → IsWholeIfCalm workers connections end }
{}
