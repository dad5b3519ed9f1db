//! The names of maps and arrays.

ghost use Rattle.std.specs.Prelude.{◌≡◌, [], map, slice_index_or, string_bytes};

/// The name of a map by its number, or of an array by the number of maps and its own; none where
/// none is given.
pub(crate) fn name_at(names: &[String], number: usize) -> &str
    ensures { result.now ≡ slice_index_or (map string_bytes names.now) number [] }
{
    match names.get(number) {
        Some(name) => name.as_str(),
        None => "",
    }
}
