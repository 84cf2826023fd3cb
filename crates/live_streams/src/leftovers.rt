// What is left in the rings once their threads have ended.
ghost use Rattle.std.specs.Prelude.{◌≡◌, vec_len};
ghost use Rattle.std.specs.Bool.{Decides};
ghost use Rattle.live_streams.specs.Rings.{ArePairs, AreFronts, AreAllTaken, SameMakers, SameTakers};

use rtrb::{Consumer, Producer};

/// Whether all that was put into these rings was taken; whatever it answers, what was taken of each is what was put in first. Who asks holds both ends of each;
/// nothing is put or taken by it.
pub fn all_taken<T: Drop>(makers: &mut Vec<Producer<T>>, takers: &mut Vec<Consumer<T>>) -> bool
    requires count { vec_len makers.old ≡ vec_len takers.old }
    requires pairs { ArePairs (vec_len takers.old) makers.old.items takers.old.items }
    ensures makers { SameMakers makers.old.items makers.new.items }
    ensures takers { SameTakers takers.old.items takers.new.items }
    ensures fronts { AreFronts (vec_len takers.old) makers.new.items takers.new.items }
    ensures value { Decides result (AreAllTaken (vec_len takers.old) makers.new.items takers.new.items) }
{
    let mut all = true;
    for lane in 0..takers.len() {
        if takers[lane].slots_beside(&mut makers[lane]) != 0 {
            all = false;
        }
    }
    all
}
