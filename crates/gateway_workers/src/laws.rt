//! A law of tours. It is what a function ensures that does nothing.

ghost use Rattle.std.specs.Prelude.{◌≡◌, ◌*◌, ℕ, List, length};
ghost use Rattle.doors.specs.Starts.{DoorMembers};
ghost use Rattle.gateway_connections.specs.Exchanges.{Service};
ghost use Rattle.gateway_workers.specs.Tours.{Tour, AreTours, connections_of};
ghost use Rattle.gateway_workers.specs.Whole.{NoneFailed};

/// Where no door failed, and each had as many connections to come as were asked for, each served that many.
pub fn doors_that_do_not_fail_are_served_whole<D>()
    ensures { (t : DoorMembers D) (s : Service) (most : ℕ) (doors back : List D) (tours : List Tour)
        → AreTours t s most doors back tours → NoneFailed t most doors tours → connections_of tours ≡ length doors * most }
{}
