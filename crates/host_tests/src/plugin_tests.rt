use guest_gen::program;
use small_files::{CODE, ECALL, EXIT_0, NOP, elf, with_data};
use std::test::Fail;
use test_calls::asked;

// `jal x0, 0`: one block of one word, for ever.
const LOOP: [u32; 1] = [0x0000_006F];

// Four NOPs, and then three words that exit with 0.
const NOPS: [u32; 7] = [NOP, NOP, NOP, NOP, EXIT_0[0], EXIT_0[1], EXIT_0[2]];

// Adds 5 to the zeros at 0x20000 by one atomic access, stores its lowest byte's old value behind them, and exits with 0.
const ACCESSES: [u32; 7] = [
    0x0002_02B7,
    0x0050_0313,
    0x0062_B3AF,
    0x0072_8423,
    0x0000_0513,
    0x05D0_0893,
    ECALL,
];

#[test]
fn a_report_has_the_rows_of_each_kind(rt: HostRuntime) -> Result<(), Fail> {
    let alloc = rt.alloc();
    for (words, code, report) in [
        (
            ["run", "--limit", "1000", "F", "hot"].as_slice(),
            LOOP.as_slice(),
            "hart 0 steps 1000 blocks 1000 limit\nplugin 1 set 1 live\nsub 0 hot\nblock 0x0000000000010000 runs 1000 insns 1000\n",
        ),
        // The box is called at the third and the sixth instruction, and begins the entry anew.
        (
            ["run", "F", "add:0:1+when:eq:0:3:exec,then=0"].as_slice(),
            NOPS.as_slice(),
            "hart 0 steps 7 blocks 1 exit 0\nplugin 1 set 1 live\nentry 0 sum 1\nsub 1 exec\nhart 0 step 3 pc 0x0000000000010008 word 0x00000013\nhart 0 step 6 pc 0x0000000000010014 word 0x00000513\n",
        ),
        (
            ["run", "F", "mem", "pages"].as_slice(),
            ACCESSES.as_slice(),
            "hart 0 steps 7 blocks 1 exit 0\nplugin 1 set 1 live\nsub 0 mem\nhart 0 pc 0x0000000000010008 amo addr 0x0000000000020000 size 8 read 0x0000000000000000 written 0x0000000000000005\nhart 0 pc 0x000000000001000c store addr 0x0000000000020008 size 1 value 0x0000000000000000\nplugin 2 set 1 live\nsub 0 pages\npage 0x0000000000020000 loads 1 stores 2\n",
        ),
        // The counts of two harts are added.
        (
            ["run", "--harts=2", "F", "counts"].as_slice(),
            EXIT_0.as_slice(),
            "hart 0 steps 3 blocks 1 exit 0\nhart 1 steps 3 blocks 1 exit 0\nplugin 1 set 1 live\nsub 0 counts\ninit 2\nblock 2\ninsn 6\nsys 2\nexit 2\n",
        ),
    ] {
        let run = asked(&rt, alloc, words, &with_data(alloc, code)?)?;
        assert_eq!(rt;
            run.report.bytes(),
            report.as_bytes(),
            "the report {report}"
        );
        assert!(rt; run.has_run);
    }
    Ok(())
}

#[test]
fn instructions_are_told_by_their_classes(rt: HostRuntime) -> Result<(), Fail> {
    let alloc = rt.alloc();
    let run = asked(&rt, alloc, &["run", "F", "classes"], &program(alloc, 1000)?)?;
    let report =
        "hart 0 steps 4017 blocks 1004 exit 0\nplugin 1 set 1 live\nsub 0 classes\nalu 1012\nmuldiv 1000\nbranch 1\njump 1001\natomic 1001\nsystem 2\n";
    assert_eq!(rt; run.report.bytes(), report.as_bytes());
    assert_eq!(rt;
        run.out.bytes(),
        [0x14, 0xA3, 0x07, 0, 0, 0, 0, 0].as_slice()
    );
    assert_eq!(rt; run.status, 0);
    Ok(())
}

#[test]
fn a_quota_withdraws_its_plugin(rt: HostRuntime) -> Result<(), Fail> {
    let alloc = rt.alloc();
    let words = [
        "run",
        "--limit=2000",
        "F",
        "counts,kinds=insn,quota=5,ask=uninstall",
    ];
    let run = asked(&rt, alloc, &words, &elf(alloc, CODE, &LOOP)?)?;
    let begin = b"hart 0 steps 2000 blocks 2000 limit\nplugin 1 set 1 gone\nsub 0 counts\ninsn ";
    assert!(rt; run.report.bytes().starts_with(begin));
    assert_eq!(rt; run.status, 9);
    Ok(())
}

#[test]
fn plugin_words_and_installs_are_refused_by_their_first_broken_rule(
    rt: HostRuntime,
) -> Result<(), Fail> {
    let alloc = rt.alloc();
    let file = elf(alloc, CODE, &EXIT_0)?;
    for (words, line) in [
        (
            ["run", "F", "counts,kinds=foo"].as_slice(),
            "tcg_host: plug-in 1: column 8: name\n",
        ),
        (
            [
                "run", "F", "counts", "counts", "counts", "counts", "counts", "counts", "counts",
                "counts", "counts",
            ]
            .as_slice(),
            "tcg_host: plug-in 9: full\n",
        ),
        // 32 harts have two boxes of the first two each, which are all that there are.
        (
            [
                "run",
                "--harts",
                "32",
                "F",
                "counts+hot",
                "counts+hot",
                "mem",
            ]
            .as_slice(),
            "tcg_host: plug-in 3: needs 32 boxes, 0 left\n",
        ),
    ] {
        let call = asked(&rt, alloc, words, &file)?;
        assert_eq!(rt; call.report.bytes(), line.as_bytes());
        assert_eq!(rt; call.status, 5);
        assert_eq!(rt; call.out.piece_lengths().len(), 0);
        assert!(rt; !call.has_run);
    }
    Ok(())
}
