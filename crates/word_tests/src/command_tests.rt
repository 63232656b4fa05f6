//! Command lines whose commands were read by hand from the grammar.

use command_words::{Command, RunOptions, command};
use flat_model::Mode;
use std::alloc::{AllocError, Global};
use std::test::Fail;

// The words between single spaces: two spaces have an empty word between them.
fn words_of(alloc: Global, line: &str) -> Result<Vec<String>, AllocError> {
    let mut words = Vec::new(alloc);
    for word in line.split(' ') {
        words.push(String::from_str(alloc, word)?)?;
    }
    Ok(words)
}

fn options(harts: u8, limit: u64, mode: Mode) -> RunOptions {
    RunOptions { harts, limit, mode }
}

const REFUSED: [&str; 61] = [
    // no command, and none of this name
    "",
    "stop F",
    "RUN F",
    "--harts 2 run F",
    "-- run F",
    // words too few and too many
    "run",
    "run --harts 2",
    "run --",
    "replay F",
    "replay",
    "blocks",
    "blocks F G",
    "disas F G",
    "disas",
    "self",
    "self 1 2",
    // empty words and values
    "run ",
    "run  F",
    "run F ",
    "run -- F ",
    "run --script= F",
    "run --script  F",
    "run --harts= F",
    // options that are unknown, or that the command doesn't take
    "run -x F",
    "run --hart 2 F",
    "run --hartss=2 F",
    "run -harts 2 F",
    "run --Harts 2 F",
    "run F --help",
    "run F -h",
    "run --=2 F",
    "run ---harts 2 F",
    "blocks --harts 2 F",
    "disas F --limit=1",
    "self 1 --start all",
    "replay --journal J F K",
    "replay --journal=J F K",
    // options given twice
    "run --harts 2 --harts 2 F",
    "run --harts=2 F --harts 3",
    "run --start all --start=all F",
    "run --script S --script S F",
    "run --journal J F --journal J",
    // the word `-`, and values that begin with it
    "run - F",
    "run F -",
    "run --script - F",
    "run --script --journal J F",
    "run F --script --",
    "run F --harts",
    // numbers
    "run --harts 33 F",
    "run --harts 0 F",
    "run --harts +2 F",
    "run --harts 2x F",
    "run --harts -1 F",
    "run --limit 0 F",
    "run --limit 4000001 F",
    "run --limit 000000000000000001000 F",
    "run --harts 2 --limit 99999999999999999999 F",
    "run --limit 4000000 --harts 32 F",
    "run --harts 9 --limit 4000000 F",
    "self 0",
    "self 100001",
];

// The line, its options, script and journal, and its plain words.
type Run<'a> = (
    &'a str,
    RunOptions,
    Option<&'a str>,
    Option<&'a str>,
    &'a [&'a str],
);

#[test]
fn lines_outside_the_grammar_are_refused(rt: HostRuntime) -> Result<(), Fail> {
    for line in REFUSED {
        let words = words_of(rt.alloc(), line)?;
        let read = command(rt.alloc(), words.as_slice()).map_err(|_| "memory")?;
        assert!(rt; read.is_none(), "{line}");
    }
    Ok(())
}

#[test]
fn runs_are_read_with_their_options(rt: HostRuntime) -> Result<(), Fail> {
    let plain = options(1, 1_000_000, Mode::All);
    let two = options(2, 1_000_000, Mode::All);
    let thousand = options(1, 1000, Mode::All);
    let first = options(1, 1_000_000, Mode::First);
    let most = options(32, 1_000_000, Mode::All);
    let longest = options(8, 4_000_000, Mode::First);
    let runs: [Run; 21] = [
        ("run F", plain, None, None, &["F"]),
        (
            "run --harts 2 F counts mem",
            two,
            None,
            None,
            &["F", "counts", "mem"],
        ),
        ("run F --harts=2", two, None, None, &["F"]),
        (
            "run F counts --harts 2 mem",
            two,
            None,
            None,
            &["F", "counts", "mem"],
        ),
        (
            "run --harts 1 --limit 1000000 --start all F",
            plain,
            None,
            None,
            &["F"],
        ),
        ("run --harts 32 F", most, None, None, &["F"]),
        (
            "run --harts 00000000000000000032 F",
            most,
            None,
            None,
            &["F"],
        ),
        ("run --limit 1000 F", thousand, None, None, &["F"]),
        (
            "run --limit 00000000000000001000 F",
            thousand,
            None,
            None,
            &["F"],
        ),
        ("run --start first F", first, None, None, &["F"]),
        ("run --start=first F", first, None, None, &["F"]),
        (
            "run --start first --limit 4000000 --harts 8 F",
            longest,
            None,
            None,
            &["F"],
        ),
        ("run --script S F", plain, Some("S"), None, &["F"]),
        ("run F --journal J", plain, None, Some("J"), &["F"]),
        (
            "run --journal=J --script=S F",
            plain,
            Some("S"),
            Some("J"),
            &["F"],
        ),
        ("run --script=-S F", plain, Some("-S"), None, &["F"]),
        (
            "run --script=- --journal=-- F",
            plain,
            Some("-"),
            Some("--"),
            &["F"],
        ),
        ("run --script=a=b F", plain, Some("a=b"), None, &["F"]),
        ("run -- --harts", plain, None, None, &["--harts"]),
        (
            "run --harts 2 F -- - -- --harts",
            two,
            None,
            None,
            &["F", "-", "--", "--harts"],
        ),
        ("run run F=1", plain, None, None, &["run", "F=1"]),
    ];
    for (line, options, script, journal, plain) in runs {
        let words = words_of(rt.alloc(), line)?;
        let read = command(rt.alloc(), words.as_slice()).map_err(|_| "memory")?;
        let Some(
            Command::Run {
                options: made,
                script: orders,
                journal: kept,
                file,
                plugins,
            },
        ) = read
        else {
            return Err(Fail::from(line));
        };
        assert_eq!(rt; made, options, "{line}");
        assert_eq!(rt; (orders, kept), (script, journal), "{line}");
        assert_eq!(rt; Some(&file), plain.first(), "{line}");
        assert_eq!(rt; Some(plugins.as_slice()), plain.get(1..), "{line}");
    }
    Ok(())
}

#[test]
fn replays_are_read_with_their_journal(rt: HostRuntime) -> Result<(), Fail> {
    let plain = options(1, 1_000_000, Mode::All);
    let short = options(2, 10, Mode::First);
    let none: &[&str] = &[];
    let replays = [
        ("replay F J", plain, None, none),
        ("replay F J counts", plain, None, &["counts"]),
        (
            "replay F --harts 2 J --limit=10 mem --start first hot",
            short,
            None,
            &["mem", "hot"],
        ),
        ("replay --script S F J -- -x", plain, Some("S"), &["-x"]),
    ];
    for (line, options, script, plain) in replays {
        let words = words_of(rt.alloc(), line)?;
        let read = command(rt.alloc(), words.as_slice()).map_err(|_| "memory")?;
        let Some(
            Command::Replay {
                options: made,
                script: orders,
                file,
                journal,
                plugins,
            },
        ) = read
        else {
            return Err(Fail::from(line));
        };
        assert_eq!(rt; (made, orders), (options, script), "{line}");
        assert_eq!(rt; (file, journal), ("F", "J"), "{line}");
        assert_eq!(rt; plugins.as_slice(), plain, "{line}");
    }
    Ok(())
}

const LISTINGS: [(&str, &str, bool); 4] = [
    ("blocks F", "F", true),
    ("blocks -- -F", "-F", true),
    ("disas F", "F", false),
    ("disas -- --", "--", false),
];

#[test]
fn listings_are_read(rt: HostRuntime) -> Result<(), Fail> {
    for (line, file, is_blocks) in LISTINGS {
        let words = words_of(rt.alloc(), line)?;
        let read = command(rt.alloc(), words.as_slice()).map_err(|_| "memory")?;
        let (named, of_blocks) = match read {
            Some(Command::Blocks { file }) => (file, true),
            Some(Command::Disas { file }) => (file, false),
            _ => return Err(Fail::from(line)),
        };
        assert_eq!(rt; named, file, "{line}");
        assert_eq!(rt; of_blocks, is_blocks, "{line}");
    }
    Ok(())
}

const GENERATED: [(&str, u32); 3] = [
    ("self 1", 1),
    ("self 1000", 1000),
    ("self -- 00000000000000100000", 100_000),
];

#[test]
fn numbers_of_programs_are_read(rt: HostRuntime) -> Result<(), Fail> {
    for (line, number) in GENERATED {
        let words = words_of(rt.alloc(), line)?;
        let read = command(rt.alloc(), words.as_slice()).map_err(|_| "memory")?;
        assert_eq!(rt; read, Some(Command::Generated { n: number }), "{line}");
    }
    Ok(())
}
