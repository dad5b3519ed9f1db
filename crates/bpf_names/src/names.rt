//! Names, and the variables that some of them stand for.

ghost use Rattle.std.specs.Prelude.{◌≡◌, ◌+◌, ◌<◌, ◌≤◌, ◌^◌, ◌&&◌, nat_le, nat_lt, map, option_map};
ghost use Rattle.bpf_shared.specs.Access.{bytes_in};
ghost use Rattle.bpf_names.specs.Names.{address_of, has_byte, names_of, number_in, variable_at, variable_named, variable_of};

use bpf_shared::{FIRST_ARRAY, FIRST_VALUE, MAP_AREA, Size, bytes};

/// A name for bytes of an array's first value: what C calls a global variable.
#[derive(Drop)]
pub struct Variable {
    pub name: String,
    /// The array's number.
    pub array: u8,
    /// Where its bytes begin in the value.
    pub at: u32,
    pub size: Size,
}

/// The names of a run file.
#[derive(Drop)]
pub struct Names {
    /// Those of the maps by their numbers, and after them those of the arrays.
    pub maps: Vec<String>,
    /// In the order of their lines.
    pub variables: Vec<Variable>,
}

/// How many bytes these are.
pub fn bytes_in(size: Size) -> usize
    ensures value { result ≡ bytes_in size }
    ensures small { (1 ≤ result) × (result ≤ 8) }
{
    match size {
        Size::Byte => 1,
        Size::Half => 2,
        Size::Word => 4,
        Size::Double => 8,
    }
}

impl Variable {
    /// The number that its bytes of this value are, lowest byte first; 0 where the value hasn't so
    /// many.
    pub fn number(&self, value: &[u8]) -> u64
        ensures { result ≡ number_in (variable_of self.now) value.now }
    {
        let at = self.at as usize;
        if at + bytes_in(self.size) <= value.len() {
            bytes::load(value, at, self.size)
        } else {
            0
        }
    }

    /// Whether the byte at this offset of the first value of an array is one of its bytes.
    pub fn has_byte(&self, array: usize, at: usize) -> bool
        ensures { result ≡ has_byte array at (variable_of self.now) }
    {
        let from = self.at as usize;
        usize::from(self.array) == array && from <= at && at < from + bytes_in(self.size)
    }

    /// Where its bytes lie among the addresses of values.
    pub fn address(&self) -> u64
        ensures address { result ≡ address_of (variable_of self.now) }
        ensures small { result < 2 ^ 63 }
    {
        let array = self.array;
        let at = self.at;
        FIRST_VALUE + MAP_AREA * (FIRST_ARRAY + u64::from(array)) + u64::from(at)
    }

    /// Whether one of its bytes is at this address.
    fn has_address(&self, address: u64) -> bool
        ensures { result ≡ nat_le (address_of (variable_of self.now)) address
            && nat_lt address (address_of (variable_of self.now) + bytes_in self.now.size) }
    {
        let first = self.address();
        first <= address && address < first + bytes_in(self.size) as u64
    }
}

/// The first of these variables that has a byte at this address.
fn variable_at(address: u64, variables: &[Variable]) -> Option<&Variable>
    ensures { option_map (λ v. variable_of v.now) result
        ≡ variable_at address (map variable_of variables.now) }
{
    match variables {
        [] => None,
        [first, others @ ..] => {
            if first.has_address(address) {
                Some(first)
            } else {
                variable_at(address, others)
            }
        }
    }
}

/// The first of these variables that has this name.
fn variable_named<'a>(name: &[u8], variables: &'a [Variable]) -> Option<&'a Variable>
    ensures { option_map (λ v. variable_of v.now) result
        ≡ variable_named name.now (map variable_of variables.now) }
{
    match variables {
        [] => None,
        [first, others @ ..] => {
            if first.name.as_bytes() == name {
                Some(first)
            } else {
                variable_named(name, others)
            }
        }
    }
}

impl Names {
    /// The first variable that has a byte at this address.
    pub fn at(&self, address: u64) -> Option<&Variable>
        ensures { option_map (λ v. variable_of v.now) result
            ≡ variable_at address (names_of self.now).variables }
    {
        variable_at(address, &self.variables)
    }

    /// The first variable of this name.
    pub fn variable(&self, name: &[u8]) -> Option<&Variable>
        ensures { option_map (λ v. variable_of v.now) result
            ≡ variable_named name.now (names_of self.now).variables }
    {
        variable_named(name, &self.variables)
    }
}
