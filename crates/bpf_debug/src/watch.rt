//! What is watched: a `go` stops after a turn that changed it.

ghost use Rattle.std.specs.Prelude.{◌≡◌, ◌++◌, true, false, IfOk, Some, option_map, slice_get, string_bytes};
ghost use Rattle.hex.specs.Hex.{decode_of};
ghost use Rattle.bpf_plain.specs.PlainStore.{StandsFor, shape_of};
ghost use Rattle.bpf_shared.specs.Sound.{IsSoundStore};
ghost use Rattle.bpf_shared.specs.Store.{Plain};
ghost use Rattle.bpf_debug.specs.Answer.{variable_watch_line, watch_line};
ghost use Rattle.bpf_debug.specs.Command.{mark_in};
ghost use Rattle.bpf_debug.specs.Watch.{ShowsOther, ShowsWatched, bytes_from, chosen, chosen_in, copies_of, index_chosen, key_chosen, kept_values, variable_watched, watched, watched_value};
ghost use Rattle.bpf_names.specs.Names.{variable_of};

use crate::command::mark_in;
use bpf_names::{Variable, bytes_in};
use bpf_plain::PlainStore;
use bpf_shared::StoreShape;
use hex::FromHexError;
use std::alloc::{AllocError, Global};

/// What is watched.
#[derive(Drop)]
pub enum Watch {
    /// The value of a key of a map, by the map's number.
    Key(usize, Vec<u8>),
    /// The values of an index of an array, by the array's number: this many, if CPUs have their own.
    Index(usize, u64, u8),
    /// Of an array's first value the bytes from one on, this many.
    Bytes(u8, usize, usize),
}

/// Bytes from one on, this many, where there are as many.
fn bytes_from(value: &[u8], at: usize, count: usize) -> Option<&[u8]>
    ensures { option_map (λ bytes. bytes.now) result ≡ bytes_from at count (Some value.now) }
{
    let end = at.checked_add(count)?;
    if end <= value.len() {
        Some(&value[at..end])
    } else {
        None
    }
}

/// The value that is watched, of a CPU if each has its own, if it is there.
fn value_at<'s>(store: &'s PlainStore, watch: &Watch, cpu: u8) -> Option<&'s [u8]>
    ensures { (s : Plain) → IsSoundStore s → StandsFor store.now s
        → watched_value (watched watch.now) s cpu ≡ option_map (λ value. value.now) result }
{
    match watch {
        Watch::Key(map, key) => store.value(*map as u64, key),
        Watch::Index(array, index, _) => store.fixed(*array as u64, cpu, *index),
        Watch::Bytes(array, at, count) => {
            let value = store.fixed(u64::from(*array), 0, 0)?;
            bytes_from(value, *at, *count)
        }
    }
}

/// How many values are watched.
fn copies(watch: &Watch) -> u8
    ensures { result ≡ copies_of (watched watch.now) }
{
    match watch {
        Watch::Key(..) => 1,
        Watch::Index(_, _, copies) => *copies,
        Watch::Bytes(..) => 1,
    }
}

/// The value that is watched, of a CPU if each has its own, copied.
fn copied(
    alloc: Global,
    store: &PlainStore,
    watch: &Watch,
    cpu: u8,
) -> Result<Option<Vec<u8>>, AllocError>
    ensures { IfOk result (λ value. (s : Plain) → IsSoundStore s → StandsFor store.now s
        → watched_value (watched watch.now) s cpu ≡ option_map (λ bytes. bytes.items) value) }
{
    match value_at(store, watch, cpu) {
        Some(value) => {
            let bytes = value.to_vec(alloc)?;
            Ok(Some(bytes))
        }
        None => Ok(None),
    }
}

/// What is watched, copied.
fn values(
    alloc: Global,
    store: &PlainStore,
    watch: &Watch,
) -> Result<Vec<Option<Vec<u8>>>, AllocError>
    ensures { IfOk result (λ values.
        ShowsWatched store.now (Some (watched watch.now)) (kept_values values.items)) }
{
    let mut values = Vec::new(alloc);
    for cpu in 0..copies(watch) {
        let value = copied(alloc, store, watch, cpu)?;
        values.push(value)?;
    }
    Ok(values)
}

/// What is watched, if anything is, copied.
pub fn watched_values(
    alloc: Global,
    store: &PlainStore,
    watch: &Option<Watch>,
) -> Result<Vec<Option<Vec<u8>>>, AllocError>
    ensures { IfOk result (λ values.
        ShowsWatched store.now (option_map watched watch.now) (kept_values values.items)) }
{
    match watch {
        Some(watch) => values(alloc, store, watch),
        None => Ok(Vec::new(alloc)),
    }
}

/// Whether a value is this one.
fn is_same(value: Option<&[u8]>, before: &Option<Vec<u8>>) -> bool
    ensures same { result ≡ true → option_map (λ bytes. bytes.now) value.entry
        ≡ option_map (λ bytes. bytes.items) before.now }
    ensures other { result ≡ false → option_map (λ bytes. bytes.now) value.entry
        ≡ option_map (λ bytes. bytes.items) before.now → ⊥ }
{
    match (value, before) {
        (Some(value), Some(before)) => value == before.as_slice(),
        (None, None) => true,
        _ => false,
    }
}

/// Whether what is watched is anything else than this.
fn differs(store: &PlainStore, watch: &Watch, before: &[Option<Vec<u8>>]) -> bool
    ensures changed { result ≡ true
        → ShowsOther store.now (Some (watched watch.now)) (kept_values before.now) }
    ensures same { result ≡ false
        → ShowsWatched store.now (Some (watched watch.now)) (kept_values before.now) }
{
    if before.len() != copies(watch) as usize {
        return true;
    }
    for cpu in 0..copies(watch) {
        if !is_same(value_at(store, watch, cpu), &before[cpu as usize]) {
            return true;
        }
    }
    false
}

/// Whether what is watched, if anything is, is anything else than this.
pub fn has_changed(store: &PlainStore, watch: &Option<Watch>, before: &[Option<Vec<u8>>]) -> bool
    ensures changed { result ≡ true
        → ShowsOther store.now (option_map watched watch.now) (kept_values before.now) }
    ensures same { result ≡ false
        → ShowsWatched store.now (option_map watched watch.now) (kept_values before.now) }
{
    match watch {
        Some(watch) => differs(store, watch, before),
        None => !before.is_empty(),
    }
}

/// What a `watch` watches, and the key or the index as the answer has it.
#[derive(Drop)]
pub struct Choice {
    pub watch: Watch,
    pub key: String,
}

/// The key of a map that a word says, if its digits are bytes in hex.
fn choose_key(alloc: Global, map: usize, word: &[u8]) -> Result<Option<Choice>, AllocError>
    ensures { IfOk result
        (λ c. option_map chosen c ≡ key_chosen map (decode_of word.now)) }
{
    let bytes = match hex::decode(alloc, word) {
        Ok(bytes) => bytes,
        Err(FromHexError::OutOfMemory) => return Err(AllocError),
        Err(_) => return Ok(None),
    };
    let key = hex::encode(alloc, &bytes)?;
    Ok(Some(Choice {
        watch: Watch::Key(map, bytes),
        key,
    }))
}

/// The index of an array that a word says, if the array has it.
fn choose_index(
    alloc: Global,
    shape: &StoreShape,
    array: usize,
    word: &[u8],
) -> Result<Option<Choice>, AllocError>
    ensures { IfOk result (λ c. option_map chosen c ≡ index_chosen shape.now.cpus array
        (slice_get shape.now.arrays array) (mark_in word.now)) }
{
    let Some(sizes) = shape.arrays().get(array) else {
        return Ok(None);
    };
    let Some(index) = mark_in(word) else {
        return Ok(None);
    };
    if index >= sizes.max {
        return Ok(None);
    }
    let copies = if sizes.per_cpu { shape.cpus() } else { 1 };
    let key = format!(in alloc; "{index}")?;
    Ok(Some(Choice {
        watch: Watch::Index(array, index, copies),
        key,
    }))
}

/// What a word says of a map, or of an array, whose numbers follow those of the maps.
pub fn choose(
    alloc: Global,
    store: &PlainStore,
    number: usize,
    word: &[u8],
) -> Result<Option<Choice>, AllocError>
    ensures { IfOk result
        (λ c. option_map chosen c ≡ chosen_in (shape_of store.now) number word.now) }
{
    let shape = store.store_shape();
    let maps = shape.maps().len();
    if number < maps {
        choose_key(alloc, number, word)
    } else {
        choose_index(alloc, shape, number - maps, word)
    }
}

/// The bytes of a variable.
pub fn variable_watch(variable: &Variable) -> Watch
    ensures { watched result ≡ variable_watched (variable_of variable.now) }
{
    Watch::Bytes(
        variable.array,
        variable.at as usize,
        bytes_in(variable.size),
    )
}

/// What `watch` answers: the name of the map or array, and the key or index.
pub fn watch_line(alloc: Global, name: &str, key: &str) -> Result<String, AllocError>
    ensures { IfOk result (λ line. string_bytes line ≡ watch_line name.now key.now) }
{
    format!(in alloc; "watch {name} {key} set\n")
}

/// What `watch` answers where it names a variable.
pub fn variable_watch_line(alloc: Global, name: &str) -> Result<String, AllocError>
    ensures { IfOk result (λ line. string_bytes line ≡ variable_watch_line name.now) }
{
    format!(in alloc; "watch {name} set\n")
}
