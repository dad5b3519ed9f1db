//! Errors that helpers answer, flags, the helpers, and words of run files.

use crate::definition::Definition;
use crate::term::Term;

pub static ENOENT: Definition = Definition {
    term: Term::Enoent,
    meaning: "the key isn't there, error 2",
    advice: "\
R0 is -2, which is printed as 18446744073709551614. `update` answers it with
the flags 2 (BPF_EXIST), and `delete` without more. Nothing is changed.",
};

pub static E2BIG: Definition = Definition {
    term: Term::TooBig,
    meaning: "the map has its greatest number of keys, or the array no such index, error 7",
    advice: "\
R0 is -7, which is printed as 18446744073709551609. `update` answers it to a
new key where the map has as many keys as its line says after `max`, and to an
index of an array that isn't below its `max`. Nothing is changed.",
};

pub static ENOMEM: Definition = Definition {
    term: Term::Enomem,
    meaning: "the map has no free element, error 12",
    advice: "\
R0 is -12, which is printed as 18446744073709551604. Each `update` puts its
value into a free element. The element of a value that was replaced or deleted
is free again once every CPU that was in a job then has ended that job, since
the job may hold the value. A map has `max` elements, and as many more as its
line says behind `spare`. To change a value in place, look it up and store to
it, or add by `lock`. Nothing is changed by the call that answers this.",
};

pub static EBUSY: Definition = Definition {
    term: Term::Ebusy,
    meaning: "the key's part of the map was changed too often, error 16",
    advice: "\
R0 is -16, which is printed as 18446744073709551600. It comes on worker threads
alone, once the segment of the key was changed 2^56 - 1 times.",
};

pub static EEXIST: Definition = Definition {
    term: Term::Eexist,
    meaning: "the key is there already, error 17",
    advice: "\
R0 is -17, which is printed as 18446744073709551599. `update` answers it with
the flags 1 (BPF_NOEXIST): somebody else was first, and the value is theirs.
Look the key up again. The indices of an array are there from the first on.
Nothing is changed.",
};

pub static EINVAL: Definition = Definition {
    term: Term::Einval,
    meaning: "the flags aren't 0, 1 or 2, or an array was to lose a key, error 22",
    advice: "\
R0 is -22, which is printed as 18446744073709551594. `update` answers it to
other flags in R4, so to BPF_F_LOCK (4), too. R4 is 0 after each call of a
helper, and has to be set again where it isn't to be 0. `delete` answers it to
each key of an array. Nothing is changed.",
};

pub static EPERM: Definition = Definition {
    term: Term::Eperm,
    meaning: "the array may only be read, error 1",
    advice: "\
R0 is -1, which is printed as 18446744073709551615. `update` answers it to each
key of an array that is `frozen`. A store to a value of such an array is F7.
Nothing is changed.",
};

pub static ANY: Definition = Definition {
    term: Term::Any,
    meaning: "flags of `update`: 0, insert the key or replace its value",
    advice: "\
They are in R4. With 1 (BPF_NOEXIST) it only inserts, with 2 (BPF_EXIST) it
only replaces.",
};

pub static NO_EXIST: Definition = Definition {
    term: Term::NoExist,
    meaning: "flags of `update`: 1, insert the key, and answer EEXIST where it is there",
    advice: "\
They are in R4. Of several CPUs that insert one key so, one is answered 0.",
};

pub static EXIST: Definition = Definition {
    term: Term::Exist,
    meaning: "flags of `update`: 2, replace the value, and answer ENOENT where the key is absent",
    advice: "\
They are in R4.",
};

pub static LOOKUP: Definition = Definition {
    term: Term::Lookup,
    meaning: "helper 1, `call lookup`: the address of a key's value",
    advice: "\
R1 is a map (`r1 = map 0`), R2 the address of the key's bytes, as R10 less some.
R0 is the value's address, or 0 where the key isn't there: test that before you
use it. The job holds the value until it ends, also where the key is deleted or
gets another value. Of an array the key is an index, four bytes with the lowest
first; of one that is `percpu` the value is that of the CPU that asks. R1 to R5
are 0 afterwards.",
};

pub static UPDATE: Definition = Definition {
    term: Term::Update,
    meaning: "helper 2, `call update`: a key gets a new value",
    advice: "\
R1 is a map (`r1 = map 0`), R2 the address of the key's bytes, R3 that of the
value's bytes, R4 the flags: 0 inserts or replaces (BPF_ANY), 1 only inserts
(BPF_NOEXIST), 2 only replaces (BPF_EXIST). R0 is 0, or an error: EINVAL,
EPERM, EEXIST, ENOENT, E2BIG, ENOMEM, EBUSY. The value gets an element of its
own; who holds the old one goes on seeing the old one. In an array the bytes are
stored over the old ones, by words. R1 to R5 are 0 afterwards.",
};

pub static DELETE: Definition = Definition {
    term: Term::Delete,
    meaning: "helper 3, `call delete`: a key is taken out of a map",
    advice: "\
R1 is a map (`r1 = map 0`), R2 the address of the key's bytes. R0 is 0, or
ENOENT where the key isn't there, or EINVAL where R1 is an array. R1 to R5 are 0
afterwards.",
};

pub static PROCESSOR_ID: Definition = Definition {
    term: Term::ProcessorId,
    meaning: "helper 8, `call cpu`: the number of the CPU, from 0",
    advice: "\
R0 is the number. R1 to R5 are 0 afterwards.",
};

pub static TIME: Definition = Definition {
    term: Term::Time,
    meaning: "helper 5, `call ktime_get_ns`: the time of the job, in nanoseconds",
    advice: "\
R0 is N of the job's `time N` in a run file, and 0 where the line doesn't say
it. There is no clock: the time stays the same while the job runs. R1 to R5 are
0 afterwards.",
};

pub static TRACE: Definition = Definition {
    term: Term::Trace,
    meaning: "helper 6, `call trace_printk`: nothing is printed",
    advice: "\
R0 is 0, whatever R1 to R5 are: the helper looks at none of them, so an address
where no bytes are is no fault. The call is no event, and `run --events` has no
line of it. To see a number, store it to a value of a map or an array, or end
with it in R0. R1 to R5 are 0 afterwards.",
};

pub static RANDOM: Definition = Definition {
    term: Term::Random,
    meaning: "helper 7, `call get_prandom_u32`: the next random number of the job",
    advice: "\
R0 is a number of 32 bits. The numbers follow from the seed, which is N of the
job's `random N` in a run file, and else the job's number: each run of the file
has the same, and no other job changes them. R1 to R5 are 0 afterwards.",
};

pub static PROCESS: Definition = Definition {
    term: Term::Process,
    meaning: "helper 14, `call get_current_pid_tgid`: the process and the thread of the job",
    advice: "\
R0 has the process in its upper 32 bits and the thread in its lower 32 bits.
Both are the number of the job plus 1, where the first job of a run file has
number 0: so two jobs are two processes. R1 to R5 are 0 afterwards.",
};

pub static USER: Definition = Definition {
    term: Term::User,
    meaning: "helper 15, `call get_current_uid_gid`: the user and the group of the job",
    advice: "\
R0 is 0: each job is root's. R1 to R5 are 0 afterwards.",
};

pub static LOCK: Definition = Definition {
    term: Term::Lock,
    meaning: "helper 93, `call spin_lock`: the lock is taken, once nobody else has it",
    advice: "\
R1 is the address of the lock: four bytes of a value of a map or an array, at a
multiple of 4, which are 0 while nobody has it and 1 else. Where it is taken
the call uses up a step and is made again with the next one; a job that takes a
lock twice waits until its budget is used up. `--patient` suits files with
locks: it leaves such outcomes out, and prints what waits for ever. An address
where no value has four bytes is F1, also one in a frame; one that is no
multiple of 4 is F2. R0 to R5 are 0 afterwards.",
};

pub static UNLOCK: Definition = Definition {
    term: Term::Unlock,
    meaning: "helper 94, `call spin_unlock`: the lock is free again",
    advice: "\
R1 is the address of the lock, as for `spin_lock`. Its four bytes are 0
afterwards, whoever has taken it: nothing tests that it was this job. A job that
ends with a lock leaves it taken. R0 to R5 are 0 afterwards.",
};

pub static BOOT_TIME: Definition = Definition {
    term: Term::BootTime,
    meaning: "helper 125, `call ktime_get_boot_ns`: the time of the job, in nanoseconds",
    advice: "\
R0 is the same as that of `ktime_get_ns`: N of the job's `time N` in a run file,
else 0. R1 to R5 are 0 afterwards.",
};

pub static SPARE: Definition = Definition {
    term: Term::Spare,
    meaning: "how many elements a map has beside those for its greatest number of keys",
    advice: "\
A value that was replaced or deleted stays in its element while a job may hold
it, so an update may find no free one: it answers ENOMEM. With `spare 0` that
is so from the first update of a full map's key on. A spare element for each
update that a job makes of one key suffices where each job makes few; a program
that changes a value in place, by a store or `lock`, needs none.",
};

pub static PACKET: Definition = Definition {
    term: Term::Packet,
    meaning: "the bytes that a job was given by `xdp` or `tc`, from 0x10000000 on",
    advice: "\
It has at most 16,384 bytes, which may be read and written at any address. The
context at R1 has the addresses of its first byte (`data`) and of the byte after
its last one (`data_end`); any access outside of these is F1. What a job leaves
in its packet is printed nowhere. A job of `ctx` has none.",
};

pub static XDP: Definition = Definition {
    term: Term::Xdp,
    meaning: "in version 3 of run files: `job CPU NAME xdp DIGITS`, a job with a packet",
    advice: "\
DIGITS are the bytes of the packet, two digits a byte. R1 is the address of the
24 bytes of Linux's `struct xdp_md`: `data` and `data_end` are the addresses at
which the packet begins and ends, `data_meta` is `data`, `rx_queue_index` is the
CPU, and all else is 0. tools/from-pcap makes such lines of a capture.",
};

pub static TC: Definition = Definition {
    term: Term::Tc,
    meaning: "in version 3 of run files: `job CPU NAME tc DIGITS`, a job with a packet",
    advice: "\
DIGITS are the bytes of the packet, two digits a byte. R1 is the address of the
192 bytes of Linux's `struct __sk_buff`: `len` is the number of the packet's
bytes, `protocol` its bytes 12 and 13 as they lie, `data` and `data_end` are the
addresses at which it begins and ends, and all else is 0. tools/from-pcap makes
such lines of a capture.",
};
