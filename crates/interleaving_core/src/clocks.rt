// Clocks.
ghost use Rattle.std.specs.Prelude.{◌≡◌};
ghost use Rattle.clv_base.specs.Core.{clock_of as clock_in};

use clv_base::events::Entry;

/// A walker's clock: the greatest stamp of its entries, 0 where it has none. It goes through the history.
pub fn clock_of(walker: u32, history: &[(u32, Entry)]) -> u64
    ensures { result ≡ clock_in walker history.now }
{
    let mut clock = 0;
    for placed in history {
        if placed.1.walker == walker {
            clock = clock.max(placed.1.stamp);
        }
    }
    clock
}
