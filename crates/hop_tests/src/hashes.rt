//! Vectors of the hash, worked out by Python's whole numbers.
use hop_layout::home;

#[test]
fn homes(rt: HostRuntime) {
    assert_eq!(rt; home(b"a", 0, 0xffff_ffff), 0x7c97_cae4);
    assert_eq!(rt; home(b"foobar", 0, 0xffff_ffff), 0x112e_f4c4);
    assert_eq!(rt; home(b"", 7, 0xffff_ffff), 7);
    assert_eq!(rt; home(b"eightlet", 0, 0xffff_ffff), 0x9ea3_dd1a);
    assert_eq!(rt;
        home(b"foobar", 0x0123_4567_89ab_cdef, 0x0fff_00ff),
        0x00d7_0015
    );
    assert_eq!(rt; home(b"a key of 19 bytes..", 1, 0xffff_ffff), 0xe625_9450);
}

#[test]
fn a_home_numbers_segment_and_bucket(rt: HostRuntime) {
    assert_eq!(rt; home(b"a", 0, 0xffff_ffff) % (1 << 10), 740);
    assert_eq!(rt; (home(b"a", 0, 0xffff_ffff) >> 16) % 64, 23);
}
