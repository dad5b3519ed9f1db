//! Printed lines as JSON objects.

ghost use Rattle.std.specs.Prelude.{◌≡◌, ◌∷◌, ◌++◌, IfOk, IfSome, OnOk, codes, string_bytes};
ghost use Rattle.bpf_json.specs.Lines.{AreObjectsOf, IsLineOf, IsObjectOf};

use crate::known::Known;
use crate::reading::{line_of, mark_in, states_at};
use std::alloc::{AllocError, Global};

/// The object of a printed line.
fn object_of(alloc: Global, known: &Known, line: &str) -> Result<String, AllocError>
    ensures { IfOk result (λ object. IsObjectOf known.now line.now (string_bytes object)) }
{
    line_of(alloc, line)?.object(alloc, known)
}

/// Appends it to the text, on a line.
fn push_object(
    alloc: Global,
    known: &Known,
    objects: &mut String,
    line: &str,
) -> Result<(), AllocError>
    ensures { OnOk result
        (IsLineOf known.now line.now (string_bytes objects.old) (string_bytes objects.new)) }
{
    let object = object_of(alloc, known, line)?;
    objects.push_str(object.as_str())?;
    objects.push_str("\n")
}

/// Whether a line is a test.
fn is_test(line: &str) -> bool {
    let (_, line) = mark_in(line);
    line.starts_with("ok ") || line.starts_with("not ok ")
}

/// The first line of a text, with the remark after it where it is a test, and what is left. A comment
/// that counts states is no remark: it is of the tests after it.
fn cut(text: &str) -> Option<(&str, &str)>
    ensures { IfSome result (λ parts. text.now ≡ parts.0.now ++ (10 ∷ parts.1.now)) }
{
    let (line, behind) = text.split_once('\n')?;
    if !is_test(line) || !behind.starts_with("# ") {
        return Some((line, behind));
    }
    let (remark, _) = behind.split_once('\n')?;
    if states_at(remark).is_some() {
        return Some((line, behind));
    }
    let length = line.len().checked_add(remark.len())?.checked_add(1)?;
    let (both, behind) = text.split_at_checked(length)?;
    Some((both, behind.strip_prefix("\n")?))
}

/// The lines of a text as JSON objects, one a line, in their order, with what is known beside them.
pub fn objects_of(alloc: Global, known: &Known, text: &str) -> Result<String, AllocError>
    ensures { IfOk result (λ objects. AreObjectsOf known.now text.now (string_bytes objects)) }
{
    let mut objects = String::new(alloc);
    let mut rest = text;
    'lines: while let Some((line, behind)) = cut(rest) {
        push_object(alloc, known, &mut objects, line)?;
        rest = behind;
    }
    if !rest.is_empty() {
        push_object(alloc, known, &mut objects, rest)?;
    }
    Ok(objects)
}
