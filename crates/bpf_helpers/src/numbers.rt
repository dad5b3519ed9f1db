//! The numbers of helpers, and of maps as registers hold them.

/// map_lookup_elem, in bpf-helpers(7).
pub const MAP_LOOKUP_ELEM: u32 = 1;

/// map_update_elem, in bpf-helpers(7).
pub const MAP_UPDATE_ELEM: u32 = 2;

/// map_delete_elem, in bpf-helpers(7).
pub const MAP_DELETE_ELEM: u32 = 3;

/// ktime_get_ns, in bpf-helpers(7).
pub const KTIME_GET_NS: u32 = 5;

/// trace_printk, in bpf-helpers(7).
pub const TRACE_PRINTK: u32 = 6;

/// get_prandom_u32, in bpf-helpers(7).
pub const GET_PRANDOM_U32: u32 = 7;

/// get_smp_processor_id, in bpf-helpers(7).
pub const GET_SMP_PROCESSOR_ID: u32 = 8;

/// get_current_pid_tgid, in bpf-helpers(7).
pub const GET_CURRENT_PID_TGID: u32 = 14;

/// get_current_uid_gid, in bpf-helpers(7).
pub const GET_CURRENT_UID_GID: u32 = 15;

/// spin_lock, in bpf-helpers(7).
pub const SPIN_LOCK: u32 = 93;

/// spin_unlock, in bpf-helpers(7).
pub const SPIN_UNLOCK: u32 = 94;

/// ktime_get_boot_ns, in bpf-helpers(7).
pub const KTIME_GET_BOOT_NS: u32 = 125;

/// The map 0 as a register holds it; the map m is m above (our own choice).
pub const MAPS: u64 = 0x1_0000_0000;
