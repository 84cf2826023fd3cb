// The place of an entry.
ghost use Rattle.std.specs.Prelude.{◌≡◌, ◌≤◌, length, OnOk};
ghost use Rattle.std.specs.List.{insert};
ghost use Rattle.clv_base.specs.Core.{put_entry as put};
ghost use Rattle.clv_base.specs.Journals.{comes_before as before};

use clv_base::events::Entry;
use std::alloc::AllocError;

fn comes_before(entry: &(u32, Entry), other: &(u32, Entry)) -> bool
    ensures { result ≡ before entry.now other.now }
{
    entry.1.stamp < other.1.stamp || (entry.1.stamp == other.1.stamp && entry.0 < other.0)
}

// How many stand in front of the first that the entry comes before.
fn place_of(entry: &(u32, Entry), history: &[(u32, Entry)]) -> usize
    ensures { (result ≤ length history.now) × (insert history.now result entry.now ≡ put entry.now history.now) }
{
    for place in 0..history.len() {
        if comes_before(entry, &history[place]) {
            return place;
        }
    }
    history.len()
}

/// Puts an entry in its place, by stamp, then shard. An `Err` is want of memory.
pub(crate) fn put_entry(
    history: &mut Vec<(u32, Entry)>,
    entry: (u32, Entry),
) -> Result<(), AllocError>
    ensures { OnOk result (history.new.items ≡ put entry history.old.items) }
{
    let place = place_of(&entry, history.as_slice());
    match history.insert(place, entry) {
        Ok(()) => Ok(()),
        Err(_) => Err(AllocError),
    }
}
