//! The elements of a map that a CPU took out.
ghost use Rattle.std.specs.Prelude.{◌≡◌, ◌⊎◌, ◌<◌, ◌%◌, ◌∷◌, [], length, slice_index, None, IsTrue, IsFalse};
ghost use Rattle.bpf_shared.specs.Shape.{IsShape};
ghost use Rattle.hop_words.specs.Ghost.{HasElement, limbo_at};
ghost use Rattle.hop_words.specs.Kinds.{retiring, run_count};
ghost use Rattle.hop_words.specs.Owning.{tail_of};
ghost use Rattle.hop_epoch.specs.Batch.{Tracks, KeepsBatches, Notes, LooksAtCounters, AreEven, SeesRunning, WaitsForOthers, link_word};
ghost use Rattle.hop_words.specs.Content.{item};

use hop_words::{HopTable, Lane};

/// An element that left its map, in hand. A CPU in a run may still hold its value, so it goes to
/// the young batch, and nowhere else. It can't be dropped, so none is lost.
pub struct Used {
    pub(crate) map: u8,
    pub(crate) number: u32,
}

impl Used {
    /// The used element that this CPU has in hand.
    pub fn new(lane: &Lane, map: u8, number: u32) -> Used
        requires used { (limbo_at lane.now.known.limbo map).used
            ≡ number ∷ tail_of (limbo_at lane.now.known.limbo map).used }
        ensures map { result.map ≡ map }
        ensures number { result.number ≡ number }
    {
        let _cpu = lane.cpu();
        Used { map, number }
    }
}

/// The two batches of one CPU and one map, linked through the elements: with the old one, of each
/// CPU the run counter that was noted when the batch became old; and the element given back last,
/// until somebody asks for it.
#[derive(Clone, Copy, Drop)]
pub struct Batches {
    map: u8,
    // before the long list, at whose end the memory of another CPU may begin
    returned: Option<u32>,
    young: Option<u32>,
    aged: Option<u32>,
    noted: [u64; 16],
}

impl Batches {
    /// No element was taken out yet.
    pub fn new(map: u8) -> Batches
        ensures map { result.map ≡ map }
        ensures young { result.young ≡ None }
        ensures aged { result.aged ≡ None }
    {
        Batches {
            map,
            returned: None,
            young: None,
            aged: None,
            noted: [0; 16],
        }
    }

    /// The element that was given back last, if there was one since the last call.
    pub fn take_returned(&mut self) -> Option<u32>
        ensures returned { result ≡ self.old.returned }
        ensures taken { self.new ≡ record self.old { returned = None } }
    {
        self.returned.take()
    }

    /// Puts a used element in front of the young batch.
    pub fn retire(&mut self, lane: &mut Lane, table: &HopTable, element: Used)
        requires table { lane.old.table ≡ table.now.id }
        requires tracks { Tracks table.now.about lane.old.known self.old.map self.old.young
            self.old.aged self.old.noted }
        requires map { element.map ≡ self.old.map }
        requires element { HasElement table.now.about element.map element.number }
        requires used { (limbo_at lane.old.known.limbo element.map).used
            ≡ element.number ∷ tail_of (limbo_at lane.old.known.limbo element.map).used }
        requires unlocked { lane.old.known.locks ≡ [] }
        ensures table { lane.new.table ≡ lane.old.table }
        ensures retired { lane.new.known
            ≡ retiring lane.old.known element.map element.number
            (tail_of (limbo_at lane.old.known.limbo element.map).used) }
        ensures map { self.new.map ≡ self.old.map }
        ensures tracks { Tracks table.now.about lane.new.known self.new.map self.new.young
            self.new.aged self.new.noted }
    {
        let Used { map, number } = element;
        lane.retire_used(table, map, number, link_to(self.young));
        self.young = Some(number);
    }

    /// Gives the old batch back where no running CPU can hold an element of it: where each counter
    /// noted with it was even, or is another by now. An old batch that is empty is followed by the
    /// young one, which is tested at once. Where both are empty it looks at no counter.
    #[inline(always)]
    pub fn reclaim(&mut self, lane: &mut Lane, table: &HopTable)
        requires table { lane.old.table ≡ table.now.id }
        requires even { table.now.about.count % 2 ≡ 0 }
        requires tracks { Tracks table.now.about lane.old.known self.old.map self.old.young
            self.old.aged self.old.noted }
        ensures table { lane.new.table ≡ lane.old.table }
        ensures map { self.new.map ≡ self.old.map }
        ensures tracks { Tracks table.now.about lane.new.known self.new.map self.new.young
            self.new.aged self.new.noted }
        ensures keeps { KeepsBatches self.old.map lane.old.known lane.new.known }
        ensures empty { (limbo_at lane.new.known.limbo self.old.map).old ≡ []
            → (limbo_at lane.new.known.limbo self.old.map).young ≡ [] }
        ensures blocked { ((limbo_at lane.new.known.limbo self.old.map).old ≡ [])
            ⊎ SeesRunning self.old.map lane.old.known lane.new.known }
    {
        if self.aged.is_none() && self.young.is_none() {
            return;
        }
        self.pass_on(lane, table);
    }

    // Passes batches on, out of line, where one of them isn't empty.
    #[cold]
    fn pass_on(&mut self, lane: &mut Lane, table: &HopTable)
        requires table { lane.old.table ≡ table.now.id }
        requires even { table.now.about.count % 2 ≡ 0 }
        requires tracks { Tracks table.now.about lane.old.known self.old.map self.old.young
            self.old.aged self.old.noted }
        ensures table { lane.new.table ≡ lane.old.table }
        ensures map { self.new.map ≡ self.old.map }
        ensures tracks { Tracks table.now.about lane.new.known self.new.map self.new.young
            self.new.aged self.new.noted }
        ensures keeps { KeepsBatches self.old.map lane.old.known lane.new.known }
        ensures empty { (limbo_at lane.new.known.limbo self.old.map).old ≡ []
            → (limbo_at lane.new.known.limbo self.old.map).young ≡ [] }
        ensures blocked { ((limbo_at lane.new.known.limbo self.old.map).old ≡ [])
            ⊎ SeesRunning self.old.map lane.old.known lane.new.known }
    {
        let _cpus = table.about().shape.cpus();
        if self.aged.is_some() {
            if !self.is_past(lane, table) {
                return;
            }
            self.free(lane, table);
        }
        if self.young.is_some() {
            self.age(lane, table);
            if self.is_past(lane, table) {
                self.free(lane, table);
            }
        }
    }

    /// Whether the old batch waits for the run of another CPU, and not for this CPU's own run.
    pub fn waits_for_others(&self, lane: &mut Lane, table: &HopTable) -> bool
        requires table { lane.old.table ≡ table.now.id }
        requires inside { lane.old.known.cpu < table.now.about.shape.cpus }
        requires tracks { Tracks table.now.about lane.old.known self.now.map self.now.young
            self.now.aged self.now.noted }
        ensures table { lane.new.table ≡ lane.old.table }
        ensures same { lane.new.known ≡ lane.old.known }
        ensures waits { WaitsForOthers self.now.aged
            (slice_index self.now.noted lane.old.known.cpu ≡ run_count table.now.about lane.old.known)
            result }
    {
        let _cpus = table.about().shape.cpus();
        if self.aged.is_none() {
            return false;
        }
        let cpu = lane.cpu();
        let count = lane.see_own_counter(table, cpu);
        self.noted[usize::from(cpu)] != count
    }

    // Whether each counter noted with the old batch is even, or another by now, which is then noted
    // as even.
    fn is_past(&mut self, lane: &mut Lane, table: &HopTable) -> bool
        requires table { lane.old.table ≡ table.now.id }
        requires shape { IsShape table.now.about.shape }
        requires room { self.old.map < length lane.old.known.limbo }
        requires notes { Notes table.now.about (limbo_at lane.old.known.limbo self.old.map).noted
            self.old.noted }
        ensures table { lane.new.table ≡ lane.old.table }
        ensures same { (self.new.map ≡ self.old.map) × (self.new.young ≡ self.old.young)
            × (self.new.aged ≡ self.old.aged) }
        ensures looks { LooksAtCounters self.old.map lane.old.known lane.new.known }
        ensures notes { Notes table.now.about (limbo_at lane.new.known.limbo self.old.map).noted
            self.new.noted }
        ensures past { IsTrue result → AreEven table.now.about.shape.cpus self.new.noted }
        ensures blocked { IsFalse result → SeesRunning self.old.map lane.old.known lane.new.known }
    {
        for cpu in 0..table.about().shape.cpus() {
            let noted = self.noted[usize::from(cpu)];
            if noted % 2 == 1 {
                let found = lane.see_counter_again(table, self.map, cpu);
                if found == noted {
                    return false;
                }
                self.noted[usize::from(cpu)] = 0;
            }
        }
        true
    }

    // Gives each element of the old batch back. The batch is written when it is empty: each step may
    // change memory, so what lies in it is read again after each.
    fn free(&mut self, lane: &mut Lane, table: &HopTable)
        requires table { lane.old.table ≡ table.now.id }
        requires even { table.now.about.count % 2 ≡ 0 }
        requires shape { IsShape table.now.about.shape }
        requires tracks { Tracks table.now.about lane.old.known self.old.map self.old.young
            self.old.aged self.old.noted }
        requires notes { Notes table.now.about (limbo_at lane.old.known.limbo self.old.map).noted
            self.old.noted }
        requires past { AreEven table.now.about.shape.cpus self.old.noted }
        ensures table { lane.new.table ≡ lane.old.table }
        ensures same { (self.new.map ≡ self.old.map) × (self.new.young ≡ self.old.young)
            × (self.new.aged ≡ None) }
        ensures keeps { KeepsBatches self.old.map lane.old.known lane.new.known }
        ensures young { (limbo_at lane.new.known.limbo self.old.map).young
            ≡ (limbo_at lane.old.known.limbo self.old.map).young }
        ensures freed { (limbo_at lane.new.known.limbo self.old.map).old ≡ [] }
    {
        let map = self.map;
        let mut left = self.aged;
        let mut last = self.returned;
        while let Some(element) = left {
            let link = lane.read_old_link(table, map, element);
            lane.give_old_bit(table, map, element);
            last = Some(element);
            left = element_of(link);
        }
        self.returned = last;
        self.aged = None;
    }

    // The young batch becomes the old one, which is empty, and each counter is noted with it.
    fn age(&mut self, lane: &mut Lane, table: &HopTable)
        requires table { lane.old.table ≡ table.now.id }
        requires shape { IsShape table.now.about.shape }
        requires tracks { Tracks table.now.about lane.old.known self.old.map self.old.young
            self.old.aged self.old.noted }
        requires empty { (limbo_at lane.old.known.limbo self.old.map).old ≡ [] }
        ensures table { lane.new.table ≡ lane.old.table }
        ensures same { (self.new.map ≡ self.old.map) × (self.new.young ≡ None)
            × (self.new.aged ≡ self.old.young) }
        ensures keeps { KeepsBatches self.old.map lane.old.known lane.new.known }
        ensures sights { lane.new.known.tally ≡ lane.old.known.tally }
        ensures young { (limbo_at lane.new.known.limbo self.old.map).young ≡ [] }
        ensures aged { (limbo_at lane.new.known.limbo self.old.map).old
            ≡ (limbo_at lane.old.known.limbo self.old.map).young }
        ensures notes { Notes table.now.about (limbo_at lane.new.known.limbo self.old.map).noted
            self.new.noted }
    {
        self.noted[0] = lane.note_first_counter(table, self.map);
        for cpu in 1..table.about().shape.cpus() {
            self.noted[usize::from(cpu)] = lane.note_counter(table, self.map, cpu);
        }
        self.aged = self.young;
        self.young = None;
    }
}

// The word that leads to an element, or to none.
fn link_to(element: Option<u32>) -> u64
    ensures { result ≡ link_word element }
{
    match element {
        Some(element) => u64::from(element) + 1,
        None => 0,
    }
}

// The element that a word leads to.
fn element_of(word: u64) -> Option<u32>
    ensures { result ≡ item word }
{
    if word == 0 || word > 1 << 32 {
        None
    } else {
        Some((word - 1) as u32)
    }
}
