//! What a session does to watch something: it makes no move.

ghost use Rattle.std.specs.Prelude.{◌≡◌, IfErr, IfOk, OnErr, string_bytes};
ghost use Rattle.bpf_debug.specs.Command.{Unwatch, Watch, WatchVariable};
ghost use Rattle.bpf_buffer_debug.specs.Command.{Plain};

use super::Session;
use bpf_debug::DebugError;
use bpf_debug::held::name_at;
use bpf_debug::maps::map_named;
use bpf_debug::watch::{choose, variable_watch, variable_watch_line, watch_line};
use std::alloc::Global;

impl Session {
    ghost use Rattle.bpf_buffer_debug.specs.Session.{Leaves, RefusesHere};

    /// The value of a key, in hex, of the map of a name is watched, or that of an index of the array,
    /// and nothing else.
    pub(super) fn watch(
        &mut self,
        alloc: Global,
        name: &[u8],
        word: &[u8],
    ) -> Result<String, DebugError>
        ensures answered { IfOk result (λ text. Leaves self.old (Plain (Watch name.now word.now))
            (string_bytes text) self.new) }
        ensures refused { IfErr result
            (λ e. RefusesHere self.old (Plain (Watch name.now word.now)) e) }
        ensures unchanged { OnErr result (self.new ≡ self.old) }
    {
        let Some(number) = map_named(&self.names.maps, name) else {
            return Err(DebugError::NoMap);
        };
        let Some(choice) = choose(alloc, self.album.machine().store(), number, word)? else {
            return Err(DebugError::BadOperand);
        };
        let text = watch_line(
            alloc,
            name_at(&self.names.maps, number),
            choice.key.as_str(),
        )?;
        self.watch = Some(choice.watch);
        Ok(text)
    }

    /// The variable of a name is watched, and nothing else.
    pub(super) fn watch_variable(
        &mut self,
        alloc: Global,
        name: &[u8],
    ) -> Result<String, DebugError>
        ensures answered { IfOk result (λ text.
            Leaves self.old (Plain (WatchVariable name.now)) (string_bytes text) self.new) }
        ensures refused { IfErr result
            (λ e. RefusesHere self.old (Plain (WatchVariable name.now)) e) }
        ensures unchanged { OnErr result (self.new ≡ self.old) }
    {
        let Some(variable) = self.names.variable(name) else {
            return Err(DebugError::NoMap);
        };
        let text = variable_watch_line(alloc, variable.name.as_str())?;
        self.watch = Some(variable_watch(variable));
        Ok(text)
    }

    /// Nothing is watched.
    pub(super) fn unwatch(&mut self, alloc: Global) -> Result<String, DebugError>
        ensures answered { IfOk result
            (λ text. Leaves self.old (Plain Unwatch) (string_bytes text) self.new) }
        ensures refused { IfErr result (λ e. e ≡ DebugError.OutOfMemory) }
        ensures unchanged { OnErr result (self.new ≡ self.old) }
    {
        let text = "watch deleted\n".to_string(alloc)?;
        self.watch = None;
        Ok(text)
    }
}
