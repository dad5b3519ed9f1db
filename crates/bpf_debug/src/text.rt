//! Text put into room that was made for it.

ghost use Rattle.std.specs.Prelude.{◌≡◌, ◌+◌, ◌≤◌, ◌++◌, length, string_bytes, string_capacity, string_len};
ghost use Rattle.std.specs.Fmt.{decimal};

use itoa::Buffer;

/// Appends a text to another one, in its room.
pub fn put(out: &mut String, text: &str)
    requires { string_len out.old + length text.now ≤ string_capacity out.old }
    ensures text { string_bytes out.new ≡ string_bytes out.old ++ text.now }
    ensures size { string_len out.new ≡ string_len out.old + length text.now }
    ensures room { string_capacity out.old ≤ string_capacity out.new }
{
    match out.push_str(text) {
        Ok(()) => {}
        Err(_) => unreachable!(),
    }
}

/// Appends a number to a text, in its room: it has 20 digits at most.
pub fn put_number(out: &mut String, number: u64)
    requires { string_len out.old + 20 ≤ string_capacity out.old }
    ensures text { string_bytes out.new ≡ string_bytes out.old ++ decimal number }
    ensures size { string_len out.new ≤ string_len out.old + 20 }
    ensures room { string_capacity out.old ≤ string_capacity out.new }
{
    let mut buffer = Buffer::new();
    put(out, buffer.format(number));
}
