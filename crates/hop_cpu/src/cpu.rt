//! A port with its table, as a shared store that serves the port's CPU.
ghost use Rattle.std.specs.Prelude.{◌≡◌};
ghost use Rattle.hop_map.specs.Port.{IsPortOf};

use crate::growing::update_growing;
use bpf_shared::{
    ArrayShape, AtomicOp, KeyList, MapAnswer, MapShape, Shared, Size, Span, ValuePlace, Worn,
};
use hop_map::HopPort;
use hop_words::{HopTable, Operation, Request};
use std::marker::Model;
use std::sync::Wait;

/// One CPU of a concurrent store. Others may use the store's other ports at the same time.
#[derive(Drop)]
pub struct HopCpu<'a, R: Wait> {
    pub(crate) rt: &'a R,
    pub(crate) table: &'a HopTable,
    pub(crate) port: HopPort,
}

impl<'a, R: Wait> Model for HopCpu<'a, R> {
    ghost use Rattle.hop_map.specs.Port.{IsPortOf};
    ghost use Rattle.hop_cpu.specs.Serving.{Serving};

    ghost Value = { Serving };

    ghost view = { λ s. record { table = s.table.now; port = s.port } };

    ghost invariant = { λ s. IsPortOf s.table.now s.port };
}

impl<'a, R: Wait> HopCpu<'a, R> {
    /// The CPU of a port, over the port's table. Calls that may wait for a lock wait by `rt`.
    pub fn new(rt: &'a R, table: &'a HopTable, port: HopPort) -> HopCpu<'a, R>
        requires fits { IsPortOf table.now port }
        ensures table { result.table ≡ table.now }
        ensures port { result.port ≡ port }
    {
        HopCpu { rt, table, port }
    }

    /// The port again.
    pub fn into_port(self) -> HopPort
        ensures port { result ≡ self.entry.port }
        ensures fits { IsPortOf self.entry.table result }
    {
        let HopCpu {
            rt: _,
            table: _,
            port,
        } = self;
        port
    }
}

impl<R: Wait> Shared for HopCpu<'_, R> {
    ghost use Rattle.hop_cpu.specs.Serving.{serves, running, serves_span, IsPortWorn, MayLackElement};
    ghost use Rattle.hop_cpu.specs.Passing.{ExtendsHistory};
    ghost use Rattle.hop_cpu.specs.Lemmas.Passing.{nothing, follows};

    ghost shapes = { λ x. x.table.about.shape };

    ghost serves = { serves };

    ghost running = { running };

    ghost held = { serves_span };

    ghost passes = { ExtendsHistory };

    ghost may_wear = { IsPortWorn };

    ghost may_lack = { MayLackElement };

    fn shape(&self, map: u64) -> Option<MapShape> {
        self.port.shape(self.table, map)
    }

    fn array(&self, array: u64) -> Option<ArrayShape> {
        self.port.array(self.table, array)
    }

    fn cpus(&self) -> u8 {
        self.port.cpus(self.table)
    }

    fn begin(&mut self, _cpu: u8) -> Result<(), Worn> {
        self.port.begin(self.table)
    }

    fn lookup(&mut self, _cpu: u8, map: u8, key: &[u8]) -> Option<Span> {
        // What the sizes of maps are is known of them here.
        let _maps = self.table.about().shape.maps();
        self.port.lookup(self.rt, self.table, map, key)
    }

    fn update(&mut self, _cpu: u8, map: u8, key: &[u8], value: &[u8], flags: u64) -> MapAnswer {
        let request = Request { key, value, flags };
        update_growing(self.rt, self.table, &mut self.port, map, &request)
    }

    fn delete(&mut self, _cpu: u8, map: u8, key: &[u8]) -> MapAnswer {
        self.port.delete(self.rt, self.table, map, key)
    }

    fn keys(&mut self, _cpu: u8, map: u8, list: &mut KeyList) {
        self.port.keys(self.rt, self.table, map, list);
    }

    fn value_load(&mut self, _cpu: u8, at: ValuePlace, size: Size) -> u64 {
        self.port.value_load(self.table, at, size)
    }

    fn value_store(&mut self, _cpu: u8, at: ValuePlace, size: Size, word: u64) {
        match size {
            Size::Double => self.port.store_word(self.table, at, word),
            _ => self.port.store_part(self.rt, self.table, at, size, word),
        }
    }

    fn value_atomic(
        &mut self,
        _cpu: u8,
        at: ValuePlace,
        size: Size,
        op: AtomicOp,
        operand: u64,
        expected: u64,
    ) -> u64 {
        match size {
            Size::Double => self.port.atomic_word(self.table, at, op, operand, expected),
            _ => {
                let operation = Operation {
                    op,
                    operand,
                    expected,
                };
                self.port
                    .atomic_part(self.rt, self.table, at, size, operation)
            }
        }
    }

    fn end(&mut self, _cpu: u8) {
        self.port.end(self.table);
    }

    ghost nothing = { nothing };

    ghost follows = { follows };
}
