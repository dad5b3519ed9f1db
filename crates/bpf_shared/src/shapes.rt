//! The sizes of maps and arrays, and of a store.
ghost use Rattle.std.specs.Prelude.{◌≡◌, ◌≤◌, ◌↔◌, [], Some, IfOk, IfErr, IsOk, length, slice_index_or};
ghost use Rattle.bpf_shared.specs.Contents.{bytes_of_all};
ghost use Rattle.bpf_shared.specs.First.{first_of};
ghost use Rattle.bpf_shared.specs.Refusals.{each_array_tests};

use bpf_codes::{Code, Diagnostic};
use std::marker::Model;
use thiserror::Error;

/// Where the first map's values begin.
pub const FIRST_VALUE: u64 = 0x10_0000_0000;

/// From a map's first value to that of the next map.
pub const MAP_AREA: u64 = 0x1000_0000;

/// The number of the first array's area, after those of the maps.
pub const FIRST_ARRAY: u64 = 16;

/// The sizes of a map in bytes and elements, the mask of its keys' hashes, and whether it grows.
#[derive(Clone, Copy, PartialEq, Eq, Debug)]
pub struct MapShape {
    pub key: u64,
    pub value: u64,
    pub max: u64,
    pub spare: u64,
    pub mask: u32,
    /// Whether the map begins with one segment and splits as it fills. A plain store takes no
    /// notice.
    pub grow: bool,
}

/// The sizes of an array in bytes and values, whether each CPU has values of its own, and whether
/// they may only be read.
#[derive(Clone, Copy, PartialEq, Eq, Debug)]
pub struct ArrayShape {
    pub value: u64,
    pub max: u64,
    pub per_cpu: bool,
    pub frozen: bool,
}

/// Why no store has this shape. Maps go by their numbers, from 0 on, and so do arrays.
#[derive(Clone, Copy, PartialEq, Eq, Debug, Error)]
pub enum ShapeError {
    #[error("the keys of map {map} don't have 1 to 64 bytes")]
    KeySize { map: usize },
    #[error("the values of map {map} don't have 1 to 256 bytes")]
    ValueSize { map: usize },
    #[error("map {map} isn't for 1 to 65,536 keys")]
    KeyCount { map: usize },
    #[error("map {map} has more than 65,536 spare elements")]
    SpareCount { map: usize },
    #[error("there are more than 16 maps")]
    TooManyMaps,
    #[error("there aren't 1 to 16 CPUs")]
    CpuCount,
    #[error("out of memory")]
    OutOfMemory,
    #[error("the values of array {array} don't have 1 to 65,536 bytes")]
    ArrayValueSize { array: usize },
    #[error("array {array} isn't for 1 to 65,536 values")]
    ArrayCount { array: usize },
    #[error("the values of array {array} take more than 16 MiB")]
    ArraySize { array: usize },
    #[error("there are more than 16 arrays")]
    TooManyArrays,
    #[error("the first contents of array {array} don't fit its values")]
    ArrayContents { array: usize },
}

impl ShapeError {
    ghost use Rattle.std.specs.Prelude.{◌≡◌};
    ghost use Rattle.bpf_shared.specs.Diagnostic.{shape_diagnostic};

    /// What is printed of it: its code, and where it is.
    pub fn diagnostic(self) -> Diagnostic
        ensures { result ≡ shape_diagnostic self }
    {
        match self {
            ShapeError::KeySize { .. } => Diagnostic::new(Code::S1),
            ShapeError::ValueSize { .. } => Diagnostic::new(Code::S2),
            ShapeError::KeyCount { .. } => Diagnostic::new(Code::S3),
            ShapeError::SpareCount { .. } => Diagnostic::new(Code::S4),
            ShapeError::TooManyMaps => Diagnostic::new(Code::S5),
            ShapeError::CpuCount => Diagnostic::new(Code::S6),
            ShapeError::OutOfMemory => Diagnostic::new(Code::S7),
            ShapeError::ArrayValueSize { .. } => Diagnostic::new(Code::S8),
            ShapeError::ArrayCount { .. } => Diagnostic::new(Code::S9),
            ShapeError::ArraySize { .. } => Diagnostic::new(Code::S10),
            ShapeError::TooManyArrays => Diagnostic::new(Code::S11),
            ShapeError::ArrayContents { .. } => Diagnostic::new(Code::S12),
        }
    }
}

impl MapShape {
    ghost use Rattle.bpf_shared.specs.Refusals.{map_tests};

    /// Why no map has this shape, by the first size that is out of range.
    pub fn refusal(&self, map: usize) -> Option<ShapeError>
        ensures { result ≡ first_of (map_tests map self.now) }
    {
        if !(1..=64).contains(&self.key) {
            Some(ShapeError::KeySize { map })
        } else if !(1..=256).contains(&self.value) {
            Some(ShapeError::ValueSize { map })
        } else if !(1..=65_536).contains(&self.max) {
            Some(ShapeError::KeyCount { map })
        } else if self.spare > 65_536 {
            Some(ShapeError::SpareCount { map })
        } else {
            None
        }
    }
}

impl ArrayShape {
    ghost use Rattle.std.specs.Prelude.{◌≡◌, ◌+◌, ◌*◌, ◌≤◌, ◌<◌, ◌↔◌, IsTrue};
    ghost use Rattle.bpf_shared.specs.Shape.{IsArrayShape, IsWithin, array_stride, copies, copy_size, copy_stride, fixed_span};
    ghost use Rattle.bpf_shared.specs.Refusals.{array_tests};

    /// From one value to the next.
    pub fn stride(&self) -> u64
        requires { self.now.value ≤ 65536 }
        ensures stride { result ≡ array_stride self.now }
        ensures room { (self.now.value ≤ result) × (result ≤ 65536) }
    {
        (self.value + 7) / 8 * 8
    }

    /// How often its values are there, where there are this many CPUs.
    pub fn copies(&self, cpus: u8) -> u64
        ensures { result ≡ copies cpus self.now }
    {
        if self.per_cpu { u64::from(cpus) } else { 1 }
    }

    /// From the first value of one CPU to that of the next.
    pub fn copy_stride(&self) -> u64
        requires value { self.now.value ≤ 65536 }
        requires max { self.now.max ≤ 65536 }
        ensures { result ≡ copy_stride self.now }
    {
        (self.stride() * self.max + 63) / 64 * 64
    }

    /// Why no array has this shape, where there are this many CPUs and it has this many bytes at
    /// first, by the first size that is out of range.
    pub fn refusal(&self, array: usize, cpus: u8, filled: usize) -> Option<ShapeError>
        requires { cpus ≤ 16 }
        ensures { result ≡ first_of (array_tests cpus filled array self.now) }
    {
        if !(1..=65_536).contains(&self.value) {
            return Some(ShapeError::ArrayValueSize { array });
        }
        if !(1..=65_536).contains(&self.max) {
            return Some(ShapeError::ArrayCount { array });
        }
        let size = self.stride() * self.max;
        if size * self.copies(cpus) > 0x100_0000 {
            Some(ShapeError::ArraySize { array })
        } else if filled as u64 > size {
            Some(ShapeError::ArrayContents { array })
        } else {
            None
        }
    }

    /// The address of the value of an index, among those of a CPU if each has its own.
    pub fn address(&self, array: u8, copy: u8, index: u64) -> u64
        requires array { array < 16 }
        requires value { self.now.value ≤ 65536 }
        requires max { self.now.max ≤ 65536 }
        requires copy { copy < 16 }
        requires index { index < self.now.max }
        ensures { result ≡ (fixed_span array self.now copy index).at }
    {
        FIRST_VALUE
            + MAP_AREA * (FIRST_ARRAY + u64::from(array))
            + u64::from(copy) * self.copy_stride()
            + index * self.stride()
    }

    /// Whether the bytes from an offset on, counted from the array's first value, are in one value.
    pub fn has(&self, cpus: u8, offset: u64, count: u64) -> bool
        requires shape { IsArrayShape cpus self.now }
        requires some { 1 ≤ count }
        requires few { count ≤ 65536 }
        ensures { IsTrue result ↔ IsWithin cpus self.now offset count }
    {
        // Those of global variables are all in the first value, which needs no division.
        if !self.per_cpu && count <= self.value && offset <= self.value - count {
            return true;
        }
        let copy_stride = self.copy_stride();
        let stride = self.stride();
        let copy = offset / copy_stride;
        let within = offset % copy_stride;
        let index = within / stride;
        if copy >= self.copies(cpus) {
            return false;
        }
        if index >= self.max {
            return false;
        }
        within % stride + count <= self.value
    }
}

/// How many bytes the array of this number has at first.
fn filled(contents: &[Vec<u8>], number: usize) -> usize
    ensures { result ≡ length (slice_index_or (bytes_of_all contents.now) number []) }
{
    match contents.get(number) {
        Some(bytes) => bytes.len(),
        None => 0,
    }
}

/// Why one of these arrays has no such shape: the first size that is out of range.
fn arrays_refusal(cpus: u8, arrays: &[ArrayShape], contents: &[Vec<u8>]) -> Option<ShapeError>
    requires { cpus ≤ 16 }
    ensures { result ≡ first_of (each_array_tests cpus (bytes_of_all contents.now) 0 arrays.now) }
{
    for (number, array) in arrays.iter().enumerate() {
        if let Some(refusal) = array.refusal(number, cpus, filled(contents, number)) {
            return Some(refusal);
        }
    }
    None
}

/// The number of CPUs, the shapes of the maps and arrays, and what the arrays have at first, all in
/// range.
#[derive(Drop)]
pub struct StoreShape {
    cpus: u8,
    maps: Vec<MapShape>,
    arrays: Vec<ArrayShape>,
    contents: Vec<Vec<u8>>,
}

impl Model for StoreShape {
    ghost use Rattle.bpf_shared.specs.Shape.{Shape, IsShape};
    ghost use Rattle.bpf_shared.specs.Contents.{bytes_of_all};

    ghost Value = { Shape };

    ghost view = { λ s. record {
      cpus = s.cpus;
      maps = s.maps.items;
      arrays = s.arrays.items;
      contents = bytes_of_all s.contents.items;
    } };

    ghost invariant = { λ s. IsShape (record { cpus = s.cpus; maps = s.maps.items; arrays = s.arrays.items; contents = bytes_of_all s.contents.items }) };
}

impl StoreShape {
    ghost use Rattle.bpf_shared.specs.Shape.{Shape, IsShape, without_arrays};
    ghost use Rattle.bpf_shared.specs.Refusals.{shape_tests, arrays_tests};

    /// A store for 1 to 16 CPUs and up to 16 maps, without arrays. It takes no memory.
    pub fn new(cpus: u64, maps: Vec<MapShape>) -> Result<StoreShape, ShapeError>
        ensures accepted { IsOk result ↔ IsShape (without_arrays cpus maps.items) }
        ensures made { IfOk result (λ s. s ≡ without_arrays cpus maps.items) }
        ensures refused { IfErr result (λ e. first_of (shape_tests cpus maps.items) ≡ Some e) }
    {
        if !(1..=16).contains(&cpus) {
            return Err(ShapeError::CpuCount);
        }
        if maps.len() > 16 {
            return Err(ShapeError::TooManyMaps);
        }
        for (number, map) in maps.iter().enumerate() {
            if let Some(refusal) = map.refusal(number) {
                return Err(refusal);
            }
        }
        let alloc = *maps.allocator();
        let arrays = Vec::new(alloc);
        let contents = Vec::new(alloc);
        Ok(StoreShape {
            cpus: cpus as u8,
            maps,
            arrays,
            contents,
        })
    }

    /// This store with up to 16 arrays, which have these bytes at first, and zeros after them.
    /// It takes no memory.
    pub fn with_arrays(
        self,
        arrays: Vec<ArrayShape>,
        contents: Vec<Vec<u8>>,
    ) -> Result<StoreShape, ShapeError>
        ensures accepted { IsOk result ↔ IsShape (record self { arrays = arrays.items; contents = bytes_of_all contents.items }) }
        ensures made { IfOk result (λ s. s ≡ record self { arrays = arrays.items; contents = bytes_of_all contents.items }) }
        ensures refused { IfErr result (λ e. first_of (arrays_tests self.cpus arrays.items (bytes_of_all contents.items)) ≡ Some e) }
    {
        if arrays.len() > 16 {
            return Err(ShapeError::TooManyArrays);
        }
        if let Some(refusal) = arrays_refusal(self.cpus, &arrays, &contents) {
            return Err(refusal);
        }
        Ok(StoreShape {
            cpus: self.cpus,
            maps: self.maps,
            arrays,
            contents,
        })
    }

    /// How many CPUs there are.
    pub fn cpus(&self) -> u8
        ensures cpus { result ≡ self.now.cpus }
        ensures in_range { IsShape self.now }
    {
        self.cpus
    }

    /// The maps, by their numbers.
    pub fn maps(&self) -> &[MapShape]
        ensures maps { result.now ≡ self.now.maps }
        ensures in_range { IsShape self.now }
    {
        &self.maps
    }
    /// The arrays, by their numbers.
    pub fn arrays(&self) -> &[ArrayShape]
        ensures arrays { result.now ≡ self.now.arrays }
        ensures in_range { IsShape self.now }
    {
        &self.arrays
    }
    /// What they have at first.
    pub fn contents(&self) -> &[Vec<u8>]
        ensures { bytes_of_all result.now ≡ self.now.contents }
    {
        &self.contents
    }
}
