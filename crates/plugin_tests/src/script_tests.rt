//! Words and scripts whose results were worked out by hand.

ghost use Rattle.std.specs.Prelude.{◌≤◌, length, IfSome};
ghost use Rattle.flat_model.specs.declared.limits.TheConstants.{SCRIPT_MOST};

use flat_model::limits::{CLASSES_ALL, READS_AND_WRITES, SCRIPT_MOST, WRITES};
use flat_model::{Act, Ask, Cond, Filter, Kind, KindName, Op, Order, Refused, Sub, Timed};
use run_script::{ScriptRefusal, ScriptRule, SpecRefusal, SpecRule, plugin_word, script};
use std::test::Fail;

const SEVENTEEN: &str = "add:0:1+add:0:1+add:0:1+add:0:1+add:0:1+add:0:1+add:0:1+add:0:1+\
    add:0:1+add:0:1+add:0:1+add:0:1+add:0:1+add:0:1+add:0:1+add:0:1+foo";

const WORDS: [(&str, u64, SpecRule); 44] = [
    ("", 1, SpecRule::Name),
    ("foo", 1, SpecRule::Name),
    ("counts,kinds=foo", 8, SpecRule::Name),
    ("counts,", 8, SpecRule::Name),
    ("counts+", 8, SpecRule::Name),
    ("counts,\u{e9}", 8, SpecRule::Name),
    ("counts,class=alu/foo", 8, SpecRule::Name),
    ("exec,pc=0", 6, SpecRule::Name),
    ("exec,rw=x", 6, SpecRule::Name),
    ("exec,ask=stay", 6, SpecRule::Name),
    ("exec,quota=5,kinds=foo", 14, SpecRule::Name),
    ("add:0", 1, SpecRule::Name),
    ("when:eq:0:3", 1, SpecRule::Name),
    ("when:zz:0:3:exec", 1, SpecRule::Name),
    ("when:eq:0:3:foo", 1, SpecRule::Name),
    ("when:eq:0:exec", 1, SpecRule::Name),
    ("add:0:1:2", 1, SpecRule::Number),
    ("add:64:1", 1, SpecRule::Number),
    ("set:0:", 1, SpecRule::Number),
    ("add:0:18446744073709551616", 1, SpecRule::Number),
    ("add:0:000000000000000000001", 1, SpecRule::Number),
    ("when:eq:0:3:4:exec", 1, SpecRule::Number),
    ("exec,pc=1-2-3", 6, SpecRule::Number),
    ("exec,pc=0x1-2", 6, SpecRule::Number),
    ("exec,pc=00000000000000000-1", 6, SpecRule::Number),
    ("exec,quota=0,ask=reset", 6, SpecRule::Number),
    ("exec,quota=,ask=reset", 6, SpecRule::Number),
    ("exec,pc=2-1", 6, SpecRule::Range),
    ("exec,pc=0-1,pc=0-1", 13, SpecRule::Repeat),
    ("add:0:1,kinds=insn,kinds=insn", 20, SpecRule::Repeat),
    ("exec,quota=5,quota=5", 14, SpecRule::Repeat),
    ("exec,ask=reset,ask=uninstall", 16, SpecRule::Repeat),
    ("exec,then=0", 6, SpecRule::Place),
    ("add:0:1,then=0", 9, SpecRule::Place),
    ("add:0:1,quota=5", 9, SpecRule::Place),
    ("set:0:1,ask=reset", 9, SpecRule::Place),
    ("exec,quota=5,then=0", 14, SpecRule::Place),
    ("exec,quota=5", 1, SpecRule::Pair),
    ("exec,ask=reset", 1, SpecRule::Pair),
    ("add:0:1+exec,quota=5,rw=r+foo", 9, SpecRule::Pair),
    ("counts+hot+mem", 12, SpecRule::Boxes),
    ("counts+hot+when:x", 12, SpecRule::Boxes),
    ("counts+hot+add:0:1+mem", 20, SpecRule::Boxes),
    (SEVENTEEN, 129, SpecRule::Subs),
];

#[test]
fn words_are_refused_at_their_first_broken_rule(rt: HostRuntime) -> Result<(), Fail> {
    for (word, column, rule) in WORDS {
        let why = Refused::Because(SpecRefusal { column, rule });
        assert_eq!(rt; plugin_word(rt.alloc(), word).err(), Some(why), "{word}");
    }
    Ok(())
}

fn all_pcs(kinds: u8, act: Act) -> Sub {
    let filter = Filter {
        kinds,
        lo: 0,
        hi: u64::MAX,
        classes: CLASSES_ALL,
        rw: READS_AND_WRITES,
    };
    Sub { filter, act }
}

fn called(kinds: u8, name: KindName) -> Sub {
    let kind = Kind {
        name,
        quota: 0,
        ask: Ask::Stay,
    };
    all_pcs(kinds, Act::Call { kind })
}

fn adding() -> Sub {
    let act = Act::Inline {
        op: Op::Add,
        entry: 0,
        imm: 1,
    };
    all_pcs(4, act)
}

fn storing() -> Sub {
    let filter = Filter {
        kinds: 9,
        lo: 31,
        hi: 255,
        classes: 12,
        rw: WRITES,
    };
    let act = Act::Inline {
        op: Op::Store,
        entry: 5,
        imm: u64::MAX,
    };
    Sub { filter, act }
}

fn uninstalling() -> Sub {
    let kind = Kind {
        name: KindName::Mem,
        quota: 5,
        ask: Ask::Uninstall,
    };
    all_pcs(8, Act::Call { kind })
}

fn conditional() -> Sub {
    let kind = Kind {
        name: KindName::Exec,
        quota: 2,
        ask: Ask::Reset,
    };
    let act = Act::Cond {
        cond: Cond::Eq,
        entry: 63,
        imm: 3,
        then_store: Some(0),
        kind,
    };
    all_pcs(4, act)
}

#[test]
fn words_spell_sets(rt: HostRuntime) -> Result<(), Fail> {
    let read = [
        ("counts", 0, called(127, KindName::Counts)),
        ("hot", 0, called(2, KindName::Hot)),
        ("mem", 0, called(8, KindName::Mem)),
        ("exec", 0, called(4, KindName::Exec)),
        ("classes", 0, called(4, KindName::Classes)),
        ("pages", 0, called(8, KindName::Pages)),
        ("add:0:1", 1, adding()),
        (
            "set:5:18446744073709551615,pc=1F-ff,class=load/store,rw=w,kinds=mem/init",
            6,
            storing(),
        ),
        ("mem,quota=5,ask=uninstall", 0, uninstalling()),
        (
            "when:eq:63:3:exec,ask=reset,then=0,quota=00000000000000000002",
            64,
            conditional(),
        ),
    ];
    for (word, entries, sub) in read {
        let set = plugin_word(rt.alloc(), word).map_err(|_| "refused")?;
        assert_eq!(rt; set.entries, entries, "{word}");
        assert_eq!(rt; set.subs.as_slice(), [sub].as_slice(), "{word}");
    }
    Ok(())
}

const SCRIPTS: [(&str, u64, u64, ScriptRule); 30] = [
    ("AT 10 reset 1", 1, 1, ScriptRule::Form),
    ("at x reset 1", 1, 4, ScriptRule::Number),
    ("at 10 reset", 1, 12, ScriptRule::Form),
    ("at 10 reset 256", 1, 13, ScriptRule::Number),
    ("at 10 reset 1 2", 1, 15, ScriptRule::Form),
    (
        "at 10 install counts,kinds=foo",
        1,
        22,
        ScriptRule::Word(SpecRule::Name),
    ),
    ("at 10 reset 1\nat 5 reset 1\n", 2, 4, ScriptRule::Backwards),
    ("at", 1, 3, ScriptRule::Form),
    ("at 10", 1, 6, ScriptRule::Form),
    ("at 10 ", 1, 7, ScriptRule::Form),
    ("at  10 reset 1", 1, 4, ScriptRule::Number),
    ("at 10 reset 1 ", 1, 15, ScriptRule::Form),
    (" at 10 reset 1", 1, 1, ScriptRule::Form),
    ("at 10 Reset 1", 1, 7, ScriptRule::Form),
    ("at \u{e9} reset 1", 1, 4, ScriptRule::Form),
    ("at 10 uninstall 0x1", 1, 17, ScriptRule::Number),
    ("at 10 register 1", 1, 17, ScriptRule::Form),
    ("at 10 register 256 foo", 1, 16, ScriptRule::Number),
    (
        "at 10 register 1 foo",
        1,
        18,
        ScriptRule::Word(SpecRule::Name),
    ),
    ("at 10 register 1 hot hot", 1, 22, ScriptRule::Form),
    ("at 10 install counts,\u{e9}", 1, 15, ScriptRule::Form),
    (
        "at 10 install exec,quota=5",
        1,
        15,
        ScriptRule::Word(SpecRule::Pair),
    ),
    (
        "at 10 install hot+mem+exec x",
        1,
        23,
        ScriptRule::Word(SpecRule::Boxes),
    ),
    ("at 18446744073709551616 reset 1", 1, 4, ScriptRule::Number),
    ("at 10 reset 1\r", 1, 13, ScriptRule::Number),
    ("at 10 reset 1\r\r\n", 1, 13, ScriptRule::Number),
    ("at 10 reset\r\n", 1, 12, ScriptRule::Form),
    ("\n# at\nat 10 reset", 3, 12, ScriptRule::Form),
    ("at 10 reset 1\r\n#\nat 9 foo", 3, 4, ScriptRule::Backwards),
    (
        "at 10 reset 1\nat 10 foo\nat 5 reset 1",
        2,
        7,
        ScriptRule::Form,
    ),
];

fn within_most(text: &str) -> Option<&[u8]>
    ensures { IfSome result (λ bytes. length bytes.now ≤ SCRIPT_MOST) }
{
    let bytes = text.as_bytes();
    if bytes.len() as u64 <= SCRIPT_MOST {
        Some(bytes)
    } else {
        None
    }
}

#[test]
fn scripts_are_refused_at_their_first_broken_rule(rt: HostRuntime) -> Result<(), Fail> {
    for (text, line, column, rule) in SCRIPTS {
        let bytes = within_most(text).ok_or("too long")?;
        let why = Refused::Because(ScriptRefusal { line, column, rule });
        assert_eq!(rt; script(rt.alloc(), bytes).err(), Some(why), "{text}");
    }
    Ok(())
}

#[test]
fn scripts_spell_orders(rt: HostRuntime) -> Result<(), Fail> {
    let spec = plugin_word(rt.alloc(), "mem,quota=5,ask=uninstall").map_err(|_| "refused")?;
    let hot = plugin_word(rt.alloc(), "hot").map_err(|_| "refused")?;
    let read = [
        ("at 0 reset 0", 0, Order::Reset { plugin: 0 }),
        (
            "#\u{e9}\n\nat 010 uninstall 255\r\n",
            10,
            Order::Uninstall { plugin: 255 },
        ),
        (
            "at 18446744073709551615 install mem,quota=5,ask=uninstall",
            u64::MAX,
            Order::Install { spec },
        ),
        (
            "at 7 register 2 hot\n#",
            7,
            Order::Register {
                plugin: 2,
                spec: hot,
            },
        ),
    ];
    for (text, when, order) in read {
        let bytes = within_most(text).ok_or("too long")?;
        let list = script(rt.alloc(), bytes).map_err(|_| "refused")?;
        assert_eq!(rt;
            list.as_slice(),
            [Timed { when, order }].as_slice(),
            "{text}"
        );
    }
    Ok(())
}

#[test]
fn scripts_have_any_number_of_orders(rt: HostRuntime) -> Result<(), Fail> {
    let read = [
        ("", 0),
        ("\n\r\n#at", 0),
        ("at 5 reset 1\nat 5 reset 1", 2),
        ("at 1 reset 1\n\nat 2 reset 1\r\nat 2 reset 3\n", 3),
    ];
    for (text, lines) in read {
        let bytes = within_most(text).ok_or("too long")?;
        let list = script(rt.alloc(), bytes).map_err(|_| "refused")?;
        assert_eq!(rt; list.len(), lines, "{text}");
    }
    Ok(())
}
