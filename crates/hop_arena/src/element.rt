//! An element that a CPU claimed.
ghost use Rattle.std.specs.Prelude.{◌≡◌, ◌≤◌, [], length};
ghost use Rattle.hop_words.specs.Ghost.{shape_at, HasElement};
ghost use Rattle.hop_layout.specs.Layout.{words_for};
ghost use Rattle.hop_words.specs.Owning.{IsInHand, key_filled, value_filled};
ghost use Rattle.hop_arena.specs.Filling.{with_words, word_list};

use hop_layout::word_at;
use hop_words::{HopTable, Lane};

/// An element in hand, which nobody else has seen: its words may be filled, and then it is linked
/// in its map or given back. It can't be dropped, so none is lost.
pub struct Element {
    pub(crate) map: u8,
    pub(crate) number: u32,
}

impl Element {
    /// The element's number in its map.
    pub fn number(&self) -> u32
        ensures { result ≡ self.now.number }
    {
        self.number
    }

    /// The number, of an element that is linked in its map from now on.
    pub fn into_number(self) -> u32
        ensures { result ≡ self.number }
    {
        let Element { map: _, number } = self;
        number
    }

    /// Writes the key and the value into the element's words, with zeros after the last bytes.
    pub fn fill(&self, lane: &mut Lane, table: &HopTable, key: &[u8], value: &[u8])
        requires table { lane.old.table ≡ table.now.id }
        requires element { HasElement table.now.about self.now.map self.now.number }
        requires hand { IsInHand lane.old.known self.now.map self.now.number }
        requires empty { (key_filled lane.old.known.fresh ≡ 0)
            × (value_filled lane.old.known.fresh ≡ 0) }
        requires unlocked { lane.old.known.locks ≡ [] }
        requires key { length key.now ≡ (shape_at table.now.about self.now.map).key }
        requires value { length value.now ≡ (shape_at table.now.about self.now.map).value }
        requires sizes { (length key.now ≤ 64) × (length value.now ≤ 256) }
        ensures table { lane.new.table ≡ lane.old.table }
        ensures filled { lane.new.known
            ≡ record lane.old.known {
              fresh = with_words lane.old.known.fresh
                  (word_list (words_for (length key.now)) key.now)
                  (word_list (words_for (length value.now)) value.now);
            } }
    {
        'key: for word in 0..key.len().div_ceil(8) {
            lane.fill_key_word(
                table,
                self.map,
                self.number,
                word as u32,
                word_at(key, word),
            );
        }
        'value: for word in 0..value.len().div_ceil(8) {
            lane.fill_value_word(
                table,
                self.map,
                self.number,
                word as u32,
                word_at(value, word),
            );
        }
    }
}
