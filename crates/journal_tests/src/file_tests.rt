use flat_model::{Act, Ask, Cond, Entry, Kind, KindName, Mode, Order, Origin, Refused};
use journal_file::{FileRefusal, RunHead, read, write};
use std::alloc::Global;
use std::test::*;

/// Turns of two harts, and both leave: a file of version 1.
const TURNS: [u8; 44] = [
    0x54, 0x43, 0x47, 0x4a, 0x01, 0x00, 0x00, 0x00, 0x06, 0x00, 0x00, 0x00, 0x00, 0x00, 0x00, 0x00,
    0x01, 0x00, 0x03, 0x00, 0x00, 0x00, 0x01, 0x01, 0x03, 0x00, 0x00, 0x00, 0x01, 0x00, 0x03, 0x00,
    0x00, 0x00, 0x04, 0x00, 0x01, 0x01, 0x03, 0x00, 0x00, 0x00, 0x04, 0x01,
];

/// The header of version 2 of the same journal: two harts, all with their start from the first, a limit of 1,000,000.
const HEADER: [u8; 26] = [
    0x54, 0x43, 0x47, 0x4a, 0x02, 0x00, 0x00, 0x00, 0x06, 0x00, 0x00, 0x00, 0x00, 0x00, 0x00, 0x00,
    0x02, 0x00, 0x40, 0x42, 0x0f, 0x00, 0x00, 0x00, 0x00, 0x00,
];

/// Each entry, origin, order, act and kind, and each case of their fields but for six of the eight conditions.
const EACH: &[u8] = b"\
    \x54\x43\x47\x4a\x02\x00\x00\x00\x08\x00\x00\x00\x00\x00\x00\x00\x20\x01\x01\x00\x00\x00\x00\x00\x00\x00\x01\x00\x05\x00\x00\x00\
    \x02\x00\x00\x02\x06\x7f\x00\x00\x00\x00\x00\x00\x00\x00\xff\xff\xff\xff\xff\xff\xff\xff\xff\x01\x03\x00\x00\x00\x00\x00\x00\x00\
    \x00\x00\x00\x00\x7f\x00\x00\x00\x00\x00\x00\x00\x00\xff\xff\xff\xff\xff\xff\xff\xff\xff\x01\x03\x00\x01\x02\x00\x00\x00\x00\x00\
    \x00\x00\x01\x04\x00\x00\x01\x00\x00\x00\x00\x00\x10\x00\x01\x00\x00\x00\x00\x00\x06\x00\x01\x01\x00\x00\x01\x02\x03\x04\x05\x06\
    \x07\x08\x04\x00\x00\x01\x00\x00\x00\x00\x00\x10\x00\x01\x00\x00\x00\x00\x00\x06\x00\x01\x01\x01\x3f\x01\x00\x00\x00\x00\x00\x00\
    \x00\x7f\x00\x00\x00\x00\x00\x00\x00\x00\xff\xff\xff\xff\xff\xff\xff\xff\xff\x01\x03\x02\x07\x01\x05\x00\x00\x00\x00\x00\x00\x00\
    \x06\x09\x00\x00\x00\x03\x00\x00\x00\x00\x00\x00\x00\x02\x01\x07\x00\x00\x00\x00\x00\x00\x00\x7f\x00\x00\x00\x00\x00\x00\x00\x00\
    \xff\xff\xff\xff\xff\xff\xff\xff\xff\x01\x03\x02\x00\x00\x00\x00\x00\x00\x00\x00\x00\x00\x02\x00\x00\x00\x00\x00\x00\x00\x00\x00\
    \x00\x02\x01\x04\x03\x02\x01\x01\x01\x01\x00\x03\x7f\x00\x00\x00\x00\x00\x00\x00\x00\xff\xff\xff\xff\xff\xff\xff\xff\xff\x01\x03\
    \x00\x03\x00\x00\x00\x00\x00\x00\x00\x00\x00\x7f\x00\x00\x00\x00\x00\x00\x00\x00\xff\xff\xff\xff\xff\xff\xff\xff\xff\x01\x03\x00\
    \x04\x00\x00\x00\x00\x00\x00\x00\x00\x00\x7f\x00\x00\x00\x00\x00\x00\x00\x00\xff\xff\xff\xff\xff\xff\xff\xff\xff\x01\x03\x00\x05\
    \x00\x00\x00\x00\x00\x00\x00\x00\x00\x02\x02\x00\x01\x02\x01\x02\x03\xf0\x03\x01\x03\x00\x01\x04\x00\x05\xff\x01";

fn refusal(alloc: Global, bytes: &[u8]) -> Option<FileRefusal> {
    match read(alloc, bytes) {
        Err(Refused::Because(refusal)) => Some(refusal),
        _ => None,
    }
}

#[test]
fn what_is_written_is_read_again(rt: HostRuntime) -> Result<(), Fail> {
    let alloc = rt.alloc();
    let old = read(alloc, &TURNS).ok().ok_or("a journal")?;
    assert_eq!(rt; old.head, None);
    assert_eq!(rt; (old.journal.len(), old.journal.total()), (6, 12));
    assert_eq!(rt; old.journal.entries()[2], Entry::Turn { hart: 0, n: 3 });
    let head = RunHead::new(2, Mode::All, 1_000_000).ok_or("a head")?;
    let bytes = write(alloc, &head, &old.journal)?;
    let mut wanted = [0; 54];
    wanted[..26].copy_from_slice(&HEADER);
    wanted[26..].copy_from_slice(&TURNS[16..]);
    assert_eq!(rt; bytes.as_slice(), wanted.as_slice());
    let again = read(alloc, &bytes).ok().ok_or("a file")?;
    assert_eq!(rt; again.head, Some(head));
    assert_eq!(rt; again.journal.entries(), old.journal.entries());
    Ok(())
}

#[test]
fn each_case_round_trips(rt: HostRuntime) -> Result<(), Fail> {
    let alloc = rt.alloc();
    let file = read(alloc, EACH).ok().ok_or("a file")?;
    let head = file.head.ok_or("a head")?;
    assert_eq!(rt;
        (head.harts(), head.mode(), head.limit()),
        (32, Mode::First, 1)
    );
    let bytes = write(alloc, &head, &file.journal)?;
    assert_eq!(rt; bytes.as_slice(), EACH);
    let entries = file.journal.entries();
    assert_eq!(rt; entries.len(), 8);
    let done = Entry::Done {
        party: 255,
        plugin: 1,
    };
    assert_eq!(rt; entries[7], done);
    let Entry::Order {
        origin: Origin::Start,
        order: Order::Install { spec },
    } = &entries[1]
    else {
        return Err("an install".into());
    };
    let kind = Kind {
        name: KindName::Own { number: 9 },
        quota: 3,
        ask: Ask::Uninstall,
    };
    let act = Act::Cond {
        cond: Cond::Ge,
        entry: 1,
        imm: 5,
        then_store: Some(7),
        kind,
    };
    assert_eq!(rt; spec.subs.as_slice().get(4).map(|sub| sub.act), Some(act));
    Ok(())
}

#[test]
fn the_first_broken_field_is_told(rt: HostRuntime) {
    let short = FileRefusal::Short { place: 0 };
    for (place, byte, wanted) in [
        (16, 9, FileRefusal::BadEntry { place: 0, byte: 9 }),
        (18, 0, FileRefusal::BadEntry { place: 0, byte: 0 }),
        (23, 0, FileRefusal::BadEntry { place: 1, byte: 0 }),
        (4, 3, FileRefusal::Version { got: 3 }),
        (4, 2, FileRefusal::BadHead),
        (2, 0, FileRefusal::Magic),
        (15, 0xff, FileRefusal::Short { place: 6 }),
    ] {
        let mut bytes = TURNS;
        bytes[place] = byte;
        assert_eq!(rt; refusal(rt.alloc(), &bytes), Some(wanted), "at {place}");
    }
    for (place, byte) in [(16, 0), (16, 33), (17, 2), (21, 1), (16, 0xff)] {
        let mut bytes = HEADER;
        bytes[place] = byte;
        assert_eq!(rt;
            refusal(rt.alloc(), &bytes),
            Some(FileRefusal::BadHead),
            "at {place}"
        );
        assert_eq!(rt;
            refusal(rt.alloc(), &bytes[..25]),
            Some(short),
            "at {place}"
        );
    }
    assert_eq!(rt;
        refusal(rt.alloc(), &TURNS[..43]),
        Some(FileRefusal::Short { place: 5 })
    );
    assert_eq!(rt;
        refusal(rt.alloc(), b"ten bytes."),
        Some(FileRefusal::Magic)
    );
    let mut long = [0; 45];
    long[..44].copy_from_slice(&TURNS);
    assert_eq!(rt;
        refusal(rt.alloc(), &long),
        Some(FileRefusal::Extra { bytes: 1 })
    );
    let mut many = [0xff; 16];
    many[..8].copy_from_slice(&TURNS[..8]);
    assert_eq!(rt; refusal(rt.alloc(), &many), Some(short));
}

#[test]
fn a_head_is_within_the_limits_of_a_run(rt: HostRuntime) {
    for (harts, limit, is) in [
        (1, 1, true),
        (0, 1, false),
        (33, 1, false),
        (1, 0, false),
        (8, 4_000_000, true),
        (8, 4_000_001, false),
        (9, 4_000_000, false),
        (32, 1_000_000, true),
        (32, 1_000_001, false),
    ] {
        assert_eq!(rt;
            RunHead::new(harts, Mode::First, limit).is_some(),
            is,
            "{harts} harts, {limit} steps"
        );
    }
}

#[test]
fn each_refusal_has_its_text(rt: HostRuntime) -> Result<(), Fail> {
    for (refusal, text) in [
        (FileRefusal::Short { place: 5 }, "too short at entry 5"),
        (FileRefusal::Magic, "not a journal"),
        (FileRefusal::Version { got: 3 }, "version 3"),
        (FileRefusal::BadHead, "bad head"),
        (
            FileRefusal::BadEntry { place: 2, byte: 9 },
            "bad byte 9 at entry 2",
        ),
        (FileRefusal::Extra { bytes: 1 }, "1 bytes too many"),
    ] {
        let line = format!(in rt.alloc(); "{refusal}")?;
        assert_eq!(rt; line.as_str(), text);
    }
    Ok(())
}
