//! What follows from the definition of the x86 machine.
//!
//! The functions do nothing: their contracts are the laws.
ghost use Rattle.bpf_x86.specs.Forwarding.{LoadsFindOwnStores, NewestStoresAreSeen, OthersDontSeeStores};
ghost use Rattle.bpf_x86.specs.Laws.{OrdersAreX86s, RaceFreeIsSame, TurningRaceFreeIsSame};

/// A CPU sees, of each byte, what its newest waiting store to it wrote, or else memory.
pub fn newest_stores_are_seen()
    ensures { NewestStoresAreSeen }
{}

/// A load of what the CPU stored last finds it, whatever waits.
pub fn loads_find_own_stores()
    ensures { LoadsFindOwnStores }
{}

/// No CPU sees a store that waits in another's buffer.
pub fn others_dont_see_stores()
    ensures { OthersDontSeeStores }
{}

/// Each outcome of sequential consistency is one of x86.
pub fn orders_are_x86s()
    ensures { OrdersAreX86s }
{}

/// Where no schedule leads to a data race, and each CPU can always take its turn, what x86 reaches where
/// all jobs have ended, sequential consistency reaches.
pub fn race_free_is_same()
    ensures { RaceFreeIsSame }
{
    bpf_mem::laws::writes_are_determined();
    bpf_loader::laws::one_instruction_begins();
    bpf_shared::laws::calls_have_one_reply();
}

/// Where each CPU has its next turn in all that schedules lead to, x86 adds nothing if none leads to a
/// data race.
pub fn turning_race_free_is_same()
    ensures { TurningRaceFreeIsSame }
{
    bpf_mem::laws::writes_are_determined();
    bpf_loader::laws::one_instruction_begins();
    bpf_shared::laws::calls_have_one_reply();
}
