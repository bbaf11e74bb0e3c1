//! Pieces of the bytes of forms in memory.

ghost use Rattle.std.specs.Prelude.{◌≡◌, ◌≤◌, ◌<◌, ◌++◌, length, take, min};

/// A place in the bytes to come at which one call of a form in memory ends: so many bytes ahead, and
/// nowhere where that is 0.
#[derive(Clone, Copy, Drop)]
pub struct Cut {
    pub ahead: usize,
}

impl Cut {
    /// How many of these bytes come before the place. It is then behind them, and holds no longer.
    pub fn within(&mut self, count: usize) -> usize
        ensures most { result ≤ count }
        ensures some { 0 < count → 0 < result }
    {
        let ahead = self.ahead;
        if ahead == 0 || count < ahead {
            return count;
        }
        self.ahead = 0;
        ahead
    }
}

/// Moves the first bytes of `from` to the front of `into`, at most `most` and as many as fit, and gives their
/// number.
pub(crate) fn move_front(from: &mut Vec<u8>, into: &mut [u8], most: usize) -> usize
    requires { most ≤ length from.old.items }
    ensures count { result ≡ min most (length into.new) }
    ensures moved { from.old.items ≡ take result into.new ++ from.new.items }
{
    let count = most.min(into.len());
    into[..count].copy_from_slice(&from[..count]);
    from.drain(..count);
    count
}
