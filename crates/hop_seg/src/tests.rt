//! Rows of places, and a table of calls that another program worked out.

ghost use Rattle.std.specs.Prelude.{◌≡◌, ◌<◌, ◌≤◌, ◌%◌, [], ◌∷◌, MatchOption};
ghost use Rattle.hop_seg.specs.Content.{HasPair, IsAbsent};
ghost use Rattle.hop_seg.specs.Plain.{plain_words};
ghost use Rattle.hop_seg.specs.Segment.{Sound};

mod table;

use crate::insertion::{Landing, insert};
use crate::places::PLACES;
use crate::plain::{ELEMENTS, KEYS, PlainFront, PlainSegment};
use crate::removal::{remove, replace};
use crate::search::find;
use crate::splitting::{ChildWords, split};
use std::process::Abort;

/// A segment whose keys have these home buckets.
fn segment<F: Fn(u32) -> u32>(bucket_of: F) -> PlainSegment
    requires { F.IsAlwaysCallable bucket_of }
    ensures { Sound (plain_words result) }
{
    let mut homes = [0; KEYS];
    for key in 0..KEYS {
        homes[key] = (bucket_of(key as u32) % 64) << 16;
    }
    PlainSegment::new(homes)
}

/// The element that an element's key leads to, with the key's home.
fn found(words: &mut PlainSegment, element: u32) -> (Option<u32>, u32)
    requires sound { Sound (plain_words words.old) }
    requires element { element < 256 }
    ensures sound { Sound (plain_words words.new) }
    ensures found { MatchOption result.0 (IsAbsent (plain_words words.new) ((element % 128) ∷ []))
        (HasPair (plain_words words.new) ((element % 128) ∷ [])) }
    ensures home { result.1 ≡ (plain_words words.new).fixed.home ((element % 128) ∷ []) }
{
    let home = words.home(element);
    (find(words, &[(element % 128) as u8], home), home)
}

/// Inserts an element, where its key is absent.
fn put(words: &mut PlainSegment, element: u32) -> Option<Landing>
    requires sound { Sound (plain_words words.old) }
    requires element { element < 256 }
    ensures sound { Sound (plain_words words.new) }
{
    match found(words, element) {
        (Some(_), _) => None,
        (None, home) => Some(insert(words, element, home)),
    }
}

/// Removes an element's key, where it is there.
fn take(words: &mut PlainSegment, element: u32) -> Option<u32>
    requires sound { Sound (plain_words words.old) }
    requires element { element < 256 }
    ensures sound { Sound (plain_words words.new) }
{
    match found(words, element) {
        (Some(_), home) => Some(remove(words, &[(element % 128) as u8], home)),
        (None, _) => None,
    }
}

/// Puts the other element of a key in the place or link of the one that is there.
fn swap(words: &mut PlainSegment, element: u32) -> Option<u32>
    requires sound { Sound (plain_words words.old) }
    requires element { element < 256 }
    ensures sound { Sound (plain_words words.new) }
{
    match found(words, element) {
        (Some(old), home) if old == element => {
            let other = (element + 128) % 256;
            Some(replace(words, &[(element % 128) as u8], home, other))
        }
        _ => None,
    }
}

/// The words at first, with what the lines of a table have set so far.
#[derive(Drop)]
struct Expected {
    front: PlainFront,
    next: [Option<u32>; ELEMENTS],
}

impl Expected {
    fn of(words: &PlainSegment) -> Expected {
        Expected {
            front: words.front,
            next: words.next,
        }
    }

    /// Sets one word, as in `s9=100` or `o=.`.
    fn set(&mut self, rt: &impl Abort, change: &str) {
        let Some((name, value)) = change.split_once('=') else {
            return assert!(rt; false);
        };
        let item = if value == "." {
            None
        } else {
            Some(number(rt, value))
        };
        if name == "o" {
            self.front.head = item;
        } else if let Some(index) = name.strip_prefix('h') {
            self.front.hop[number(rt, index) as usize % PLACES] = item.unwrap_or(0);
        } else if let Some(index) = name.strip_prefix('s') {
            self.front.slot[number(rt, index) as usize % PLACES] = item;
        } else if let Some(index) = name.strip_prefix('l') {
            self.next[number(rt, index) as usize % ELEMENTS] = item;
        } else {
            assert!(rt; false);
        }
    }

    /// Word by word.
    fn is_shown(&self, words: &PlainSegment) -> bool {
        self.front.hop == words.front.hop
            && self.front.slot == words.front.slot
            && self.front.head == words.front.head
            && self.next == words.next
    }
}

fn number(rt: &impl Abort, digits: &str) -> u32 {
    match digits.parse::<u32>() {
        Ok(number) => number,
        Err(_) => {
            assert!(rt; false);
            0
        }
    }
}

/// Makes the calls of a table, and compares all words after each.
fn follow(rt: &impl Abort, mut words: PlainSegment, table: &str, calls: usize)
    requires { Sound (plain_words words) }
{
    let mut expected = Expected::of(&words);
    let mut made: usize = 0;
    for token in table.split_whitespace() {
        let called = if let Some(element) = token.strip_prefix('+') {
            assert!(rt; expected.is_shown(&words));
            put(&mut words, number(rt, element) % 256).is_some()
        } else if let Some(element) = token.strip_prefix('-') {
            assert!(rt; expected.is_shown(&words));
            let element = number(rt, element) % 256;
            take(&mut words, element) == Some(element)
        } else if let Some(element) = token.strip_prefix('~') {
            assert!(rt; expected.is_shown(&words));
            swap(&mut words, number(rt, element) % 256).is_some()
        } else {
            expected.set(rt, token);
            continue;
        };
        assert!(rt; called);
        made = made.saturating_add(1);
    }
    assert!(rt; expected.is_shown(&words));
    assert_eq!(rt; made, calls);
}

#[test]
fn items_of_all_buckets(rt: HostRuntime) {
    follow(&rt, segment(|key| key % 128 * 37), table::SPREAD, 1500);
}

#[test]
fn crowded_items_move(rt: HostRuntime) {
    follow(
        &rt,
        segment(|key| 52 + key % 128 * 5 % 24),
        table::CROWDED,
        1500,
    );
}

#[test]
fn items_of_two_buckets_overflow(rt: HostRuntime) {
    follow(&rt, segment(|key| key % 2 * 40), table::PAIRED, 1000);
}

/// Inserts the elements from 0 up to the count.
fn put_all(rt: &impl Abort, words: &mut PlainSegment, count: u32)
    requires sound { Sound (plain_words words.old) }
    requires count { count ≤ 256 }
    ensures { Sound (plain_words words.new) }
{
    for element in 0..count {
        assert!(rt; put(words, element).is_some());
    }
}

/// Elements from 0 up to the count, each in the home bucket of its number. Other keys have
/// bucket 0.
fn filled(rt: &impl Abort, count: u32) -> PlainSegment
    requires { count ≤ 64 }
    ensures { Sound (plain_words result) }
{
    let mut words = segment(|key| if key < count { key } else { 0 });
    put_all(rt, &mut words, count);
    words
}

#[test]
fn one_item_moves(rt: HostRuntime) {
    let moved = "+100 h0=513 h9=2147483648 s9=100 s40=9";
    follow(&rt, filled(&rt, 40), moved, 1);
}

#[test]
fn two_items_move(rt: HostRuntime) {
    let moved = "+100 h0=3 h1=2147483648 h32=2147483648 s1=100 s32=1 s63=32";
    follow(&rt, filled(&rt, 63), moved, 1);
}

#[test]
fn neighbourhoods_go_round(rt: HostRuntime) {
    follow(&rt, segment(|_| 63), "+0 h63=1 s63=0 +1 h63=3 s0=1", 2);
}

#[test]
fn a_full_neighbourhood_overflows(rt: HostRuntime) {
    let mut words = segment(|_| 0);
    put_all(&rt, &mut words, 32);
    assert_eq!(rt; words.front.hop[0], 0xffff_ffff);
    follow(&rt, words, "+32 o=32", 1);
}

/// The item at 39 could move to 40, but none could move to 39 after it.
#[test]
fn a_displacement_that_cannot_end_does_not_begin(rt: HostRuntime) {
    let mut words = segment(|key| match key {
        0..32 => 0,
        32..39 => 7,
        39 => 39,
        _ => 0,
    });
    put_all(&rt, &mut words, 40);
    assert_eq!(rt; words.front.slot[39], Some(39));
    follow(&rt, words, "+100 o=100", 1);
}

/// How many elements the links lead to.
fn listed(words: &PlainSegment, head: Option<u32>) -> usize {
    let mut at = head;
    for passed in 0..ELEMENTS {
        match at {
            Some(element) if (element as usize) < ELEMENTS => at = words.next[element as usize],
            _ => return passed,
        }
    }
    ELEMENTS
}

/// A hundred elements of one home are removed in this order. After each the rest are found.
fn removed<F: Fn(u32) -> u32>(rt: &impl Abort, order: F)
    requires { F.IsAlwaysCallable order }
{
    let mut words = segment(|_| 0);
    put_all(rt, &mut words, 100);
    assert_eq!(rt; words.front.hop[0], 0xffff_ffff);
    assert_eq!(rt; listed(&words, words.front.head), 68);
    let mut gone = [false; 100];
    for turn in 0..100 {
        let element = order(turn) % 100;
        assert_eq!(rt; take(&mut words, element), Some(element));
        gone[element as usize] = true;
        for other in 0..100 {
            let rest = if gone[other as usize] {
                None
            } else {
                Some(other)
            };
            assert_eq!(rt; found(&mut words, other).0, rest);
        }
    }
    assert!(rt; words.front.head.is_none());
    assert_eq!(rt; words.front.hop[0], 0);
}

#[test]
fn a_hundred_of_one_home(rt: HostRuntime) {
    removed(&rt, |turn| turn);
    removed(&rt, |turn| 99 - turn % 100);
    removed(&rt, |turn| turn % 50 * 2 + turn % 100 / 50);
}

#[test]
fn a_split_parts_odd_from_even(rt: HostRuntime) {
    let mut homes = [0; KEYS];
    for key in 0..KEYS {
        homes[key] = key as u32 % 2;
    }
    let mut words = PlainSegment::new(homes);
    put_all(&rt, &mut words, 100);
    words.child = PlainFront::new();
    split(&mut words, 0);
    assert_eq!(rt; words.front.hop[0], 0x5555_5555);
    assert_eq!(rt; words.child.hop[0], 0xaaaa_aaaa);
    for place in 0..PLACES {
        let item = if place < 32 { Some(place as u32) } else { None };
        let (stays, goes) = if place % 2 == 0 {
            (item, None)
        } else {
            (None, item)
        };
        assert_eq!(rt; words.front.slot[place], stays);
        assert_eq!(rt; words.child.slot[place], goes);
    }
    assert_eq!(rt; listed(&words, words.front.head), 34);
    assert_eq!(rt; listed(&words, words.child.head), 34);
}
