//! A run in which pairs are put into their maps.

ghost use Rattle.std.specs.Prelude.{◌≡◌, ℕ, false, true, IsTrue, map};
ghost use Rattle.bpf_shared.specs.Chain.{Chain};
ghost use Rattle.bpf_pairs.specs.Pairs.{ArePairs, pair_of};
ghost use Rattle.bpf_pairs.specs.Putting.{put_events, run_events};

use crate::pairs::Pair;
use bpf_shared::{MapAnswer, Shared};

/// Puts the pairs into their maps, in their order, by updates with flags 0. Whether each was done.
fn update_all<S: Shared>(shared: &mut S, cpu: u8, pairs: &[Pair]) -> bool
    requires serves { S.serves shared.old cpu ≡ true }
    requires in_run { S.running shared.old cpu ≡ true }
    requires pairs { ArePairs (S.shapes shared.old).maps (map pair_of pairs.now) }
    ensures put { IsTrue result → Chain S.passes S.serves cpu shared.old shared.new
        (put_events (map pair_of pairs.now)) }
    ensures running { S.running shared.new ≡ S.running shared.old }
    ensures same { (S.shapes shared.new ≡ S.shapes shared.old)
        × (S.serves shared.new ≡ S.serves shared.old) }
{
    let mut done = true;
    for pair in pairs {
        let answer = shared.update(cpu, pair.map, &pair.key, &pair.value, 0);
        done = done && answer == MapAnswer::Done;
    }
    done
}

/// Puts the pairs into their maps, in their order, in a run of this CPU; where there are none there
/// is no run. Whether each was done: what is left is the store after these updates.
pub fn put_pairs<S: Shared>(shared: &mut S, cpu: u8, pairs: &[Pair]) -> bool
    requires serves { S.serves shared.old cpu ≡ true }
    requires idle { S.running shared.old cpu ≡ false }
    requires pairs { ArePairs (S.shapes shared.old).maps (map pair_of pairs.now) }
    ensures put { IsTrue result → Chain S.passes S.serves cpu shared.old shared.new
        (run_events (map pair_of pairs.now)) }
    ensures idle { (c : ℕ) → S.running shared.old c ≡ false → S.running shared.new c ≡ false }
    ensures same { (S.shapes shared.new ≡ S.shapes shared.old)
        × (S.serves shared.new ≡ S.serves shared.old) }
{
    if pairs.is_empty() {
        return true;
    }
    if shared.begin(cpu).is_err() {
        return false;
    }
    let done = update_all(shared, cpu, pairs);
    shared.end(cpu);
    done
}
