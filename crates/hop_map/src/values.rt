//! A port's accesses to values that its CPU holds, and to fixed ones. Each is one event, at one step
//! on one word.
ghost use Rattle.std.specs.Prelude.{◌≡◌, ◌<◌, ◌≤◌, true};
ghost use Rattle.bpf_base.specs.Bytes.{modulus};
ghost use Rattle.bpf_shared.specs.Access.{bytes_in};
ghost use Rattle.bpf_shared.specs.Passage.{IsReadable, IsWritable};
ghost use Rattle.bpf_shared.specs.declared.events.Event.TheVariants.{Load, Store, Atomic};
ghost use Rattle.bpf_shared.specs.declared.events.Size.TheVariants.{Double};
ghost use Rattle.hop_map.specs.Port.{IsPortOf, PortDoes, runs, port_holds};
ghost use Rattle.hop_map.specs.Noting.{CallNotes};

use crate::port::HopPort;
use crate::reaching::{change_part, change_word, load, store_part, store_word};
use bpf_shared::{AtomicOp, Size, ValuePlace};
use hop_words::{HopTable, Operation};
use std::sync::Wait;

impl HopPort {
    /// The number that the bytes at an aligned place in a held or fixed value read as.
    pub fn value_load(&mut self, table: &HopTable, at: ValuePlace, size: Size) -> u64
        requires fits { IsPortOf table.now self.old }
        requires in_run { runs self.old ≡ true }
        requires place { IsReadable table.now.about.shape (port_holds self.old)
            at.at (bytes_in size) }
        ensures in_run { runs self.new ≡ true }
        ensures loaded { PortDoes table.now.about self.old (Load at.at size result) self.new }
        ensures noted { CallNotes table.now.about (Load at.at size result)
            self.old.known self.new.known }
        ensures small { result < modulus (bytes_in size) }
        ensures fits { IsPortOf table.now self.new }
    {
        let Some(lane) = &mut self.lane else {
            unreachable!()
        };
        load(table, lane, at, size)
    }

    /// The eight bytes at an aligned place in a held value, or in a fixed one that isn't read only,
    /// become the word.
    pub fn store_word(&mut self, table: &HopTable, at: ValuePlace, word: u64)
        requires fits { IsPortOf table.now self.old }
        requires in_run { runs self.old ≡ true }
        requires place { IsWritable table.now.about.shape (port_holds self.old) at.at 8 }
        ensures in_run { runs self.new ≡ true }
        ensures stored { PortDoes table.now.about self.old (Store at.at Double word) self.new }
        ensures noted { CallNotes table.now.about (Store at.at Double word)
            self.old.known self.new.known }
        ensures fits { IsPortOf table.now self.new }
    {
        let Some(lane) = &mut self.lane else {
            unreachable!()
        };
        store_word(table, lane, at, word);
    }

    /// The bytes at an aligned place in such a value become the low bytes of the word. Others may
    /// write the bytes beside them meanwhile: then it tries again.
    pub fn store_part<R: Wait>(
        &mut self,
        rt: &R,
        table: &HopTable,
        at: ValuePlace,
        size: Size,
        word: u64,
    )
        requires fits { IsPortOf table.now self.old }
        requires in_run { runs self.old ≡ true }
        requires place { IsWritable table.now.about.shape (port_holds self.old)
            at.at (bytes_in size) }
        ensures in_run { runs self.new ≡ true }
        ensures stored { PortDoes table.now.about self.old (Store at.at size word) self.new }
        ensures noted { CallNotes table.now.about (Store at.at size word)
            self.old.known self.new.known }
        ensures fits { IsPortOf table.now self.new }
    {
        let Some(lane) = &mut self.lane else {
            unreachable!()
        };
        store_part(rt, table, lane, at, size, word);
    }

    /// An atomic operation on the eight bytes at an aligned place in such a value; the number that
    /// stood there before. Only `CompareExchange` looks at the number that is expected.
    pub fn atomic_word(
        &mut self,
        table: &HopTable,
        at: ValuePlace,
        op: AtomicOp,
        operand: u64,
        expected: u64,
    ) -> u64
        requires fits { IsPortOf table.now self.old }
        requires in_run { runs self.old ≡ true }
        requires place { IsWritable table.now.about.shape (port_holds self.old) at.at 8 }
        ensures in_run { runs self.new ≡ true }
        ensures changed { PortDoes table.now.about self.old
            (Atomic at.at Double op operand expected result) self.new }
        ensures noted { CallNotes table.now.about
            (Atomic at.at Double op operand expected result) self.old.known self.new.known }
        ensures fits { IsPortOf table.now self.new }
    {
        let Some(lane) = &mut self.lane else {
            unreachable!()
        };
        change_word(table, lane, at, op, operand, expected)
    }

    /// An atomic operation on four or eight bytes of such a value. Others may write the bytes beside
    /// them meanwhile: then it tries again.
    pub fn atomic_part<R: Wait>(
        &mut self,
        rt: &R,
        table: &HopTable,
        at: ValuePlace,
        size: Size,
        operation: Operation,
    ) -> u64
        requires fits { IsPortOf table.now self.old }
        requires in_run { runs self.old ≡ true }
        requires place { IsWritable table.now.about.shape (port_holds self.old)
            at.at (bytes_in size) }
        requires wide { 4 ≤ bytes_in size }
        ensures in_run { runs self.new ≡ true }
        ensures changed { PortDoes table.now.about self.old
            (Atomic at.at size operation.op operation.operand operation.expected result) self.new }
        ensures noted { CallNotes table.now.about
            (Atomic at.at size operation.op operation.operand operation.expected result)
            self.old.known self.new.known }
        ensures small { result < modulus (bytes_in size) }
        ensures fits { IsPortOf table.now self.new }
    {
        let Some(lane) = &mut self.lane else {
            unreachable!()
        };
        change_part(rt, table, lane, at, size, operation)
    }
}
