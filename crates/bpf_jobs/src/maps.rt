//! The lines of maps: a line a key, in the order of the keys' bytes.

ghost use Rattle.std.specs.Prelude.{◌≡◌, ◌++◌, IfOk, OnOk, length, map, string_bytes};
ghost use Rattle.bpf_shared.specs.Store.{Plain};
ghost use Rattle.bpf_shared.specs.Sound.{IsSoundStore};
ghost use Rattle.bpf_plain.specs.PlainStore.{StandsFor};
ghost use Rattle.bpf_shared.specs.Listing.{listed};
ghost use Rattle.bpf_jobs.specs.Printed.{AreMapLines, key_lines, key_line};

use crate::lists::name_at;
use bpf_plain::PlainStore;
use std::alloc::{AllocError, Global};

/// Appends the line of a key to the text.
fn push_key(
    alloc: Global,
    text: &mut String,
    name: &str,
    key: &[u8],
    value: &[u8],
) -> Result<(), AllocError>
    ensures { OnOk result (string_bytes text.new
        ≡ string_bytes text.old ++ key_line name.now key.now value.now) }
{
    let key = hex::encode(alloc, key)?;
    let value = hex::encode(alloc, value)?;
    let line = format!(in alloc; "map {name} {key}={value}\n")?;
    text.push_str(line.as_str())
}

/// Appends the lines of a map to the text, of which these are the keys with their values.
pub fn push_map(
    alloc: Global,
    text: &mut String,
    name: &str,
    pairs: &[(Vec<u8>, Vec<u8>)],
) -> Result<(), AllocError>
    ensures { OnOk result (string_bytes text.new
        ≡ string_bytes text.old ++ key_lines name.now (length pairs.now) (listed pairs.now)) }
{
    for pair in pairs {
        push_key(alloc, text, name, &pair.0, &pair.1)?;
    }
    Ok(())
}

/// The lines of all maps in the order of their numbers. They have the first of these names.
pub(crate) fn list_maps(
    alloc: Global,
    store: &PlainStore,
    names: &[String],
) -> Result<String, AllocError>
    ensures { IfOk result (λ text. (s : Plain) → IsSoundStore s → StandsFor store.now s
        → AreMapLines s (map string_bytes names.now) (length s.shape.maps) (string_bytes text)) }
{
    let mut text = String::new(alloc);
    for map in 0..store.store_shape().maps().len() {
        let pairs = store.dump(alloc, map as u64)?;
        push_map(alloc, &mut text, name_at(names, map), &pairs)?;
    }
    Ok(text)
}
