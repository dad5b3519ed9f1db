//! The words of a segment, as code reads and writes them.

ghost use Rattle.std.specs.Prelude.{◌≡◌, ◌<◌, ◌≤◌, ◌+◌, ◌↔◌, ℕ, IsTrue};
ghost use Rattle.hop_seg.specs.Words.{Words, with_hop, with_slot, with_head, with_next, IsKnown};
ghost use Rattle.hop_seg.specs.Segment.{element_key};

/// Reads the words of one segment, the links of its elements and their keys.
///
/// Elements go by their numbers. Another writer may change the words between two reads, so a read
/// says nothing of the words as they are: it says what holds of all words that agree with what was
/// read. A link may then lead anywhere, and each read answers something for each element; what it
/// answers counts only where the element is known.
pub trait SegReads {
    /// The words agree with all that this value has read.
    ghost agrees: { Self → Words → Type 0 };

    /// Nothing but reads lies between the two.
    ghost rests: { Self → Self → Type 0 };

    /// How many words were read so far: who counts none may say 0.
    ghost reads: { Self → ℕ };

    /// To compare a key takes at most n reads.
    ghost key_words: { Self → ℕ };

    /// Elements have numbers below it.
    ghost count: { Self → ℕ };

    /// Elements have numbers below it.
    fn elements(&self) -> u32
        ensures limit { (w : Words) → agrees self.now w → w.fixed.limit ≤ result }
        ensures count { result ≡ count self.now };

    /// The hop information of a bucket.
    fn hop(&mut self, bucket: usize) -> u32
        requires { bucket < 64 }
        ensures value { (w : Words) → agrees self.new w → result ≡ w.hop bucket }
        ensures rests { rests self.old self.new }
        ensures reads { reads self.new ≤ reads self.old + 1 };

    /// The item at a place.
    fn slot(&mut self, place: usize) -> Option<u32>
        requires { place < 64 }
        ensures value { (w : Words) → agrees self.new w → result ≡ w.slot place }
        ensures rests { rests self.old self.new }
        ensures reads { reads self.new ≤ reads self.old + 1 };

    /// The first element of the overflow list.
    fn head(&mut self) -> Option<u32>
        ensures value { (w : Words) → agrees self.new w → result ≡ w.head }
        ensures rests { rests self.old self.new }
        ensures reads { reads self.new ≤ reads self.old + 1 };

    /// The element that an element's link leads to.
    fn next(&mut self, element: u32) -> Option<u32>
        ensures value { (w : Words) → agrees self.new w → IsKnown w.fixed element →
            result ≡ w.next element }
        ensures rests { rests self.old self.new }
        ensures reads { reads self.new ≤ reads self.old + 1 };

    /// Whether this is the element's key.
    fn has_key(&mut self, element: u32, key: &[u8]) -> bool
        ensures value { (w : Words) → agrees self.new w → IsKnown w.fixed element →
            IsTrue result ↔ (element_key w element ≡ key.now) }
        ensures rests { rests self.old self.new }
        ensures reads { reads self.new ≤ reads self.old + key_words self.old };

    ghost rests_itself: { (x : Self) → rests x x };

    ghost rests_on: { (x y z : Self) → rests x y → rests y z → rests x z };

    /// A read changes neither.
    ghost rests_alike: { (x y : Self) → rests x y →
        (count y ≡ count x) × (key_words y ≡ key_words x) };

    /// What was read earlier is still agreed with.
    ghost agreed_before: { (x y : Self) (w : Words) → rests x y → agrees y w → agrees x w };
}

/// Writes them too: nobody else does, so the value shows the words as they are.
pub trait SegWords: SegReads {
    /// The words.
    ghost words: { Self → Words };

    /// Whatever else the value shows is the same in both.
    ghost stays: { Self → Self → Type 0 };

    fn set_hop(&mut self, bucket: usize, bits: u32)
        requires { bucket < 64 }
        ensures words { words self.new ≡ with_hop (words self.old) bucket bits }
        ensures stays { stays self.old self.new };

    fn set_slot(&mut self, place: usize, item: Option<u32>)
        requires { place < 64 }
        ensures words { words self.new ≡ with_slot (words self.old) place item }
        ensures stays { stays self.old self.new };

    fn set_head(&mut self, element: Option<u32>)
        ensures words { words self.new ≡ with_head (words self.old) element }
        ensures stays { stays self.old self.new };

    fn set_next(&mut self, element: u32, following: Option<u32>)
        requires { IsKnown (words self.old).fixed element }
        ensures words { words self.new ≡ with_next (words self.old) element following }
        ensures stays { stays self.old self.new };

    ghost stays_itself: { (x : Self) → stays x x };

    ghost stays_on: { (x y z : Self) → stays x y → stays y z → stays x z };

    /// The words agree with what was read of them.
    ghost words_agree: { (x : Self) → Self.agrees x (words x) };

    /// A read changes no word.
    ghost words_rest: { (x y : Self) → Self.rests x y → words y ≡ words x };

    ghost stays_at_rest: { (x y : Self) → Self.rests x y → stays x y };
}
