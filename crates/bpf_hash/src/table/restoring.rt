//! A table from the bytes that it was saved as, or from any.
ghost use Rattle.std.specs.Prelude.{◌≡◌, ◌≢◌, ◌<◌, ◌≤◌, ◌+◌, ◌*◌, ◌%◌, ◌/◌, ◌++◌, ◌==◌, ◌||◌, ℕ, List, [], ◌∷◌, true, false, not, OnOk, IfOk, IfSome, IfNone, length, map, take, drop, replicate, slice_index, slice_index_or, if◌then◌else◌};
ghost use Rattle.bpf_base.specs.Bytes.{part};
ghost use Rattle.bpf_hash.specs.declared.runs.Runs.{Runs};
ghost use Rattle.bpf_shared.specs.Shape.{IsMapShape, elements};
ghost use Rattle.bpf_hash.specs.Private.Rows.{Rows};
ghost use Rattle.bpf_hash.specs.Private.Contents.{any_below};
ghost use Rattle.bpf_hash.specs.Private.Saved.{all_below, block_of, is_linked};
ghost use Rattle.bpf_hash.specs.Private.Normal.{normal_key, normal_value, normal_held, normal_left, normal_rows, low_bit, high_bit, is_note, IsBlockAt, IsSavedRows, AreRead, IsFilled};
ghost use Rattle.bpf_hash.specs.Private.Chains.{IsChainedAt, GetsChained};
ghost use Rattle.std.specs.List.{count_by};
ghost use Rattle.bpf_hash.specs.Private.Home.{home_of};
ghost use Rattle.bpf_hash.specs.Private.Sized.{AreSized, AreApart, IsReadTable};

use super::{IDLE, Table};
use crate::home::home;
use crate::index::Index;
use bpf_shared::MapShape;
use std::alloc::{AllocError, Global};

/// What is read of a table's elements.
#[derive(Drop)]
pub(crate) struct Parts {
    linked: Vec<bool>,
    keys: Vec<u8>,
    values: Vec<u8>,
    looked_up: Vec<u32>,
    left: Vec<u32>,
}

/// Puts this many bytes after: the first of these where they are there, else zeros.
fn push_part(out: &mut Vec<u8>, present: bool, size: usize, rest: &[u8]) -> Result<(), AllocError>
    requires { present ≡ true → size ≤ length rest.now }
    ensures { OnOk result (out.new.items ≡ out.old.items
        ++ (if present then take size rest.now else replicate size 0)) }
{
    if present {
        out.extend_from_slice(&rest[..size])?;
    } else {
        for _ in 0..size {
            out.push(0)?;
        }
    }
    Ok(())
}

/// Puts the notes of an element after. Whether some CPU has anything to do with it.
fn push_notes(
    notes: &[u8],
    looked_up: &mut Vec<u32>,
    left: &mut Vec<u32>,
) -> Result<bool, AllocError>
    ensures held { OnOk result
        (looked_up.new.items ≡ looked_up.old.items ++ map low_bit notes.now) }
    ensures left { OnOk result (left.new.items ≡ left.old.items ++ map high_bit notes.now) }
    ensures noted { IfOk result (λ noted. noted
        ≡ any_below (length notes.now) (λ c. is_note (slice_index notes.now c))) }
{
    let mut noted = false;
    for note in notes {
        looked_up.push(u32::from(*note % 2))?;
        left.push(u32::from(*note / 2 % 2))?;
        noted = *note != 0 || noted;
    }
    Ok(noted)
}

/// This many bytes from the front.
fn front(bytes: &[u8], count: usize) -> &[u8]
    requires { count ≤ length bytes.now }
    ensures { result.now ≡ take count bytes.now }
{
    &bytes[..count]
}

/// What is after this many.
pub(crate) fn past(bytes: &[u8], count: usize) -> &[u8]
    requires { count ≤ length bytes.now }
    ensures { result.now ≡ drop count bytes.now }
{
    &bytes[count..]
}

/// A size, where it is there.
fn size_where(present: bool, size: usize) -> usize
    ensures { result ≡ (if present then size else 0) }
{
    if present { size } else { 0 }
}

/// One of the two.
fn either(first: bool, second: bool) -> bool
    ensures { result ≡ (first || second) }
{
    first || second
}

/// Reads an element. How many bytes it took; none where these end before it does.
fn push_element(
    parts: &mut Parts,
    shape: MapShape,
    cpus: usize,
    rest: &[u8],
) -> Result<Option<usize>, AllocError>
    requires shape { IsMapShape shape }
    requires cpus { cpus ≤ 16 }
    ensures read { IfOk result (λ found. IfSome found (λ count. (runs : List Runs) (t : Rows) (i : ℕ)
        (more : List ℕ) → IsBlockAt shape cpus rest.now runs t i more
        → (count ≡ length (block_of runs t i))
        × (parts.new.linked.items ≡ parts.old.linked.items ++ is_linked t i ∷ [])
        × (parts.new.keys.items ≡ parts.old.keys.items ++ normal_key t i)
        × (parts.new.values.items ≡ parts.old.values.items ++ normal_value runs t i)
        × (parts.new.looked_up.items ≡ parts.old.looked_up.items ++ normal_held runs t i)
        × (parts.new.left.items ≡ parts.old.left.items ++ normal_left runs t i))) }
    ensures none { IfOk result (λ found. IfNone found ((runs : List Runs) (t : Rows) (i : ℕ)
        (more : List ℕ) → IsBlockAt shape cpus rest.now runs t i more → ⊥)) }
    ensures inside { IfOk result (λ found. IfSome found (λ count. count ≤ length rest.now)) }
    ensures sized { IfOk result (λ found. IfSome found (λ count. (n : ℕ)
        → AreSized shape cpus n parts.old.linked.items parts.old.keys.items parts.old.values.items
        parts.old.looked_up.items parts.old.left.items
        → AreSized shape cpus (n + 1) parts.new.linked.items parts.new.keys.items
        parts.new.values.items parts.new.looked_up.items parts.new.left.items)) }
{
    if rest.len() < 1 + cpus {
        return Ok(None);
    }
    let marks = front(rest, 1 + cpus);
    let content = past(rest, 1 + cpus);
    let is_linked = marks[0] == 1;
    parts.linked.push(is_linked)?;
    let noted = push_notes(past(marks, 1), &mut parts.looked_up, &mut parts.left)?;
    let key = size_where(is_linked, shape.key as usize);
    let used = either(is_linked, noted);
    let value = size_where(used, shape.value as usize);
    if content.len() < key + value {
        return Ok(None);
    }
    push_part(&mut parts.keys, is_linked, shape.key as usize, content)?;
    let last = past(content, key);
    push_part(&mut parts.values, used, shape.value as usize, last)?;
    Ok(Some(1 + cpus + key + value))
}

/// Reads all elements of a table. With how many bytes they took; none where these end before they
/// do.
fn read_parts(
    alloc: Global,
    shape: MapShape,
    cpus: usize,
    bytes: &[u8],
) -> Result<Option<(Parts, usize)>, AllocError>
    requires shape { IsMapShape shape }
    requires cpus { cpus ≤ 16 }
    ensures read { IfOk result (λ found. IfSome found (λ r. (runs : List Runs) (t : Rows)
        (more : List ℕ) → IsSavedRows shape cpus bytes.now runs t more
        → AreRead runs t (elements shape) r.1 r.0.linked.items r.0.keys.items r.0.values.items
        r.0.looked_up.items r.0.left.items)) }
    ensures none { IfOk result (λ found. IfNone found ((runs : List Runs) (t : Rows) (more : List ℕ)
        → IsSavedRows shape cpus bytes.now runs t more → ⊥)) }
    ensures inside { IfOk result (λ found. IfSome found (λ r. r.1 ≤ length bytes.now)) }
    ensures sized { IfOk result (λ found. IfSome found (λ r. AreSized shape cpus (elements shape)
        r.0.linked.items r.0.keys.items r.0.values.items r.0.looked_up.items r.0.left.items)) }
{
    let mut parts = Parts {
        linked: Vec::new(alloc),
        keys: Vec::new(alloc),
        values: Vec::new(alloc),
        looked_up: Vec::new(alloc),
        left: Vec::new(alloc),
    };
    let mut at = 0;
    for element in 0..shape.max + shape.spare {
        let Some(count) = push_element(&mut parts, shape, cpus, past(bytes, at))? else {
            return Ok(None);
        };
        at += count;
        let _ = element;
    }
    Ok(Some((parts, at)))
}

/// The key in an element, where all keys have one size and lie one after the other.
#[tactic(auto, using(crate::proofs::Blocks::block_fits, crate::proofs::Blocks::in_block))]
fn key_in(keys: &[u8], element: usize, elements: usize, size: usize) -> &[u8]
    requires keys { length keys.now ≡ elements * size }
    requires element { element < elements }
    ensures { result.now ≡ part keys.now (element * size) size }
{
    &keys[element * size..element * size + size]
}

/// An element is put into the chain of its key's home, if it is in the map. False where another one there has its
/// key.
fn insert_where(
    index: &mut Index,
    present: bool,
    element: usize,
    key: &[u8],
    keys: &[u8],
    size: usize,
    homes: usize,
) -> bool
    requires homes { length index.old.heads ≡ homes }
    requires some { (0 < homes) × (homes ≤ 65536) }
    requires element { element < length index.old.nexts }
    requires keys { length keys.now ≡ length index.old.nexts * size }
    requires new { (b : ℕ) → IsChainedAt index.old b element → ⊥ }
    ensures comes { result ≡ true → present ≡ true
        → GetsChained (home_of homes key.now) element index.old index.new }
    ensures stays { present ≡ false → index.new ≡ index.old }
    ensures alone { result ≡ true → present ≡ true → (i : ℕ)
        → IsChainedAt index.old (home_of homes key.now) i → part keys.now (i * size) size ≢ key.now }
    ensures twice { result ≡ false → (i : ℕ) × (b : ℕ) × IsChainedAt index.old b i
        × (part keys.now (i * size) size ≡ key.now) × (present ≡ true) }
{
    if !present {
        return true;
    }
    let home = home(key, homes);
    match index.find(home, keys, size, key) {
        Some(_) => false,
        None => {
            index.insert(home, element);
            true
        }
    }
}

/// All elements that are in the map are put into the chains of their homes. False where two have the same key.
fn fill_index(index: &mut Index, linked: &[bool], keys: &[u8], size: usize, homes: usize) -> bool
    requires homes { length index.old.heads ≡ homes }
    requires some { (0 < homes) × (homes ≤ 65536) }
    requires elements { length index.old.nexts ≡ length linked.now }
    requires none { (b i : ℕ) → IsChainedAt index.old b i → ⊥ }
    requires keys { length keys.now ≡ length linked.now * size }
    ensures filled { result ≡ true
        → IsFilled homes size linked.now keys.now (length linked.now) index.new }
    ensures apart { result ≡ true → AreApart size linked.now keys.now (length linked.now) }
    ensures twice { result ≡ false → AreApart size linked.now keys.now (length linked.now) → ⊥ }
{
    for element in 0..linked.len() {
        let key = key_in(keys, element, linked.len(), size);
        if !insert_where(index, linked[element], element, key, keys, size, homes) {
            return false;
        }
    }
    true
}

/// How many marks are set.
fn count_marks(marks: &[bool]) -> usize
    ensures { result ≡ count_by (λ b. b) marks.now }
{
    marks.iter().filter(|mark| **mark).count()
}

/// The index of the elements that are in a map. None where they are too many, or two have the same
/// key.
fn index_of(
    alloc: Global,
    shape: MapShape,
    linked: &[bool],
    keys: &[u8],
) -> Result<Option<Index>, AllocError>
    requires shape { IsMapShape shape }
    requires linked { length linked.now ≡ elements shape }
    requires keys { length keys.now ≡ length linked.now * shape.key }
    ensures filled { IfOk result (λ found. IfSome found
        (IsFilled shape.max shape.key linked.now keys.now (length linked.now))) }
    ensures apart { IfOk result (λ found. IfSome found
        (λ x. AreApart shape.key linked.now keys.now (length linked.now))) }
    ensures few { IfOk result (λ found. IfSome found
        (λ x. count_by (λ b. b) linked.now ≤ shape.max)) }
    ensures none { IfOk result (λ found. IfNone found (count_by (λ b. b) linked.now ≤ shape.max
        → AreApart shape.key linked.now keys.now (length linked.now) → ⊥)) }
{
    let homes = shape.max as usize;
    if homes < count_marks(linked) {
        return Ok(None);
    }
    let mut index = Index::new(alloc, homes, linked.len())?;
    if fill_index(&mut index, linked, keys, shape.key as usize, homes) {
        Ok(Some(index))
    } else {
        Ok(None)
    }
}

impl Table {
    /// A table of this shape, which is the normal form of any that the bytes begin with, with how
    /// many of them it took. None only where they begin with none.
    pub fn restored(
        alloc: Global,
        shape: MapShape,
        cpus: u8,
        bytes: &[u8],
    ) -> Result<Option<(Table, usize)>, AllocError>
        requires shape { IsMapShape shape }
        requires cpus { cpus ≤ 16 }
        ensures read { IfOk result (λ found. IfSome found (λ r. (runs : List Runs) (t : Rows)
            (more : List ℕ) → IsSavedRows shape cpus bytes.now runs t more
            → (r.0 ≡ normal_rows runs t)
            × (r.1 ≡ length (all_below (block_of runs t) (elements shape))))) }
        ensures none { IfOk result (λ found. IfNone found ((runs : List Runs) (t : Rows)
            (more : List ℕ) → IsSavedRows shape cpus bytes.now runs t more → ⊥)) }
        ensures inside { IfOk result (λ found. IfSome found (λ r. r.1 ≤ length bytes.now)) }
        ensures shaped { IfOk result (λ found. IfSome found (λ r. r.0.shape ≡ shape)) }
        ensures table { IfOk result (λ found. IfSome found (λ r. IsReadTable cpus r.0)) }
    {
        let Some((parts, count)) = read_parts(alloc, shape, usize::from(cpus), bytes)? else {
            return Ok(None);
        };
        let Some(index) = index_of(alloc, shape, &parts.linked, &parts.keys)? else {
            return Ok(None);
        };
        let Parts {
            linked,
            keys,
            values,
            looked_up,
            left,
        } = parts;
        let table = Table {
            shape,
            cpus,
            index,
            count: count_marks(&linked),
            linked,
            filled: 0,
            passed: 0,
            seen: vec![in alloc; IDLE; usize::from(cpus)]?,
            keys,
            values,
            looked_up,
            left,
        };
        Ok(Some((table, count)))
    }
}
