//! The tests of `lpm_options`: what words of the command line ask for.

use super::asserts::{assert_at, assert_shown};
use lpm_limits::Config;
use lpm_options::{CommandLine, Refused, options};
use std::alloc::Global;
use std::process::Abort;

// The rules, the groups, the workers, the threshold and the greatest reclaim.
type Numbers = [usize; 5];

const DEFAULTS: Numbers = [1_048_576, 256, 1, 32, 16];

fn numbers_of(config: Config) -> Numbers {
    [
        config.rules,
        config.groups,
        config.workers,
        config.threshold,
        config.reclaim_max,
    ]
}

// The command's name, its files and its numbers; no file and no number is empty and 0.
type Line<'a> = (&'static str, [&'a str; 3], Numbers);

fn parts<'a>(line: &CommandLine<'a>) -> Line<'a> {
    match *line {
        CommandLine::Lookup {
            routes,
            addresses,
            config,
        } => ("lookup", [routes, addresses, ""], numbers_of(config)),
        CommandLine::Explain { routes, config, .. } => {
            ("explain", [routes, "", ""], numbers_of(config))
        }
        CommandLine::Apply {
            routes,
            updates,
            addresses,
            config,
        } => ("apply", [routes, updates, addresses], numbers_of(config)),
        CommandLine::Report {
            routes,
            updates,
            config,
        } => ("report", [routes, updates, ""], numbers_of(config)),
        CommandLine::Storm {
            routes,
            updates,
            addresses,
            config,
            ..
        } => ("storm", [routes, updates, addresses], numbers_of(config)),
        CommandLine::Migrate { old } => ("migrate", [old, "", ""], [0; 5]),
    }
}

// The words of a line, and the numbers that they ask for.
type Asked = (&'static str, Numbers);

// The program's name, and the words of the text.
fn words_of<'a>(rt: &impl Abort, alloc: Global, name: &'a str, text: &'a str) -> Vec<&'a str> {
    let mut words = Vec::new(alloc);
    words.push(name).expect(rt, "memory");
    for word in text.split_whitespace() {
        words.push(word).expect(rt, "memory");
    }
    words
}

// The program of this name is asked for this line.
fn assert_asks(rt: &impl Abort, alloc: Global, name: &str, text: &str, wanted: Line<'_>) {
    let words = words_of(rt, alloc, name, text);
    let Ok(line) = options(alloc, words.as_slice()) else {
        panic!(rt; "refused");
    };
    assert_at(rt, text, parts(&line), wanted);
}

// The commands, but for storms: the name, the files, and lines that ask for them with these numbers.
static COMMANDS: [(&str, [&str; 3], &[Asked]); 7] = [
    (
        "lookup",
        ["r", "a", ""],
        &[
            ("lookup r a", DEFAULTS),
            ("lookup --rules 1 r a", [1, 256, 1, 32, 16]),
            ("lookup r --rules=16777216 a", [16_777_216, 256, 1, 32, 16]),
            ("lookup --rules 7 -- r a", [7, 256, 1, 32, 16]),
            ("lookup --rules +7 r a", [7, 256, 1, 32, 16]),
            ("lookup --groups 1 r a", [1_048_576, 1, 1, 32, 16]),
            ("lookup --groups 65536 r a", [1_048_576, 65_536, 1, 32, 16]),
            ("lookup --workers 0 r a", [1_048_576, 256, 0, 32, 16]),
            ("lookup r a --workers=1024", [1_048_576, 256, 1_024, 32, 16]),
            ("lookup --threshold 0 r a", [1_048_576, 256, 1, 0, 16]),
            (
                "lookup r a --threshold=65536",
                [1_048_576, 256, 1, 65_536, 16],
            ),
            ("lookup r --max 1 a", [1_048_576, 256, 1, 32, 1]),
            (
                "lookup --max=65536 --threshold=2 --workers=5 --groups=3 --rules=4 r a",
                [4, 3, 5, 2, 65_536],
            ),
        ],
    ),
    (
        "apply",
        ["r", "u", "a"],
        &[
            ("apply r u a", DEFAULTS),
            ("apply --rules 2 r u a", [2, 256, 1, 32, 16]),
            ("apply r --groups 2 u a", [1_048_576, 2, 1, 32, 16]),
            ("apply r u --workers 2 a", [1_048_576, 256, 2, 32, 16]),
            ("apply r u a --threshold 2", [1_048_576, 256, 1, 2, 16]),
            ("apply --max 2 r u a", [1_048_576, 256, 1, 32, 2]),
            (
                "apply r --max=6 --threshold=2 --workers=5 u --groups=3 --rules=4 a",
                [4, 3, 5, 2, 6],
            ),
        ],
    ),
    (
        "report",
        ["r", "u", ""],
        &[
            ("report r u", DEFAULTS),
            ("report --rules 2 r u", [2, 256, 1, 32, 16]),
            ("report r --groups 2 u", [1_048_576, 2, 1, 32, 16]),
            ("report r u --workers 2", [1_048_576, 256, 2, 32, 16]),
            ("report r u --threshold 2", [1_048_576, 256, 1, 2, 16]),
            ("report --max 2 r u", [1_048_576, 256, 1, 32, 2]),
            (
                "report r --max=6 --threshold=2 --workers=5 u --groups=3 --rules=4",
                [4, 3, 5, 2, 6],
            ),
        ],
    ),
    (
        "explain",
        ["r", "", ""],
        &[
            ("explain r 10.1.2.3", DEFAULTS),
            ("explain --rules 2 r 0.0.0.0 1.2.3.4", [2, 256, 1, 32, 16]),
            (
                "explain r 0.0.0.0 --groups=3 1.2.3.4",
                [1_048_576, 3, 1, 32, 16],
            ),
            ("explain -- r 255.255.255.255", DEFAULTS),
        ],
    ),
    (
        "migrate",
        ["o", "", ""],
        &[("migrate o", [0; 5]), ("migrate -- o", [0; 5])],
    ),
    ("lookup", ["-", "a", ""], &[("lookup - a", DEFAULTS)]),
    ("apply", ["r", "-", "a"], &[("apply r - a", DEFAULTS)]),
];

#[test]
fn each_command_with_its_defaults_and_options(rt: HostRuntime) {
    for (name, files, rows) in &COMMANDS {
        for (text, numbers) in *rows {
            assert_asks(&rt, rt.alloc(), "lpmtool", text, (*name, *files, *numbers));
        }
    }
}

// The first word is the name of the program, whatever that is.
#[test]
fn another_name_of_the_program(rt: HostRuntime) {
    let wanted = ("lookup", ["r", "a", ""], [7, 256, 1, 32, 16]);
    assert_asks(&rt, rt.alloc(), "other", "lookup r a --rules 7", wanted);
}

// The rounds of a storm, and whether it has a stuck worker.
fn storm_parts(line: &CommandLine<'_>) -> Option<(usize, bool)> {
    match *line {
        CommandLine::Storm {
            rounds,
            has_stuck_worker,
            ..
        } => Some((rounds, has_stuck_worker)),
        _ => None,
    }
}

// The words of a line, and the numbers, the rounds and the flag that they ask for.
type AskedStorm = (&'static str, Numbers, usize, bool);

static STORMS: [AskedStorm; 11] = [
    ("storm r u a", DEFAULTS, 1, false),
    ("storm --stuck r u a", DEFAULTS, 1, true),
    ("storm r u a --stuck", DEFAULTS, 1, true),
    ("storm --rounds 1 r u a", DEFAULTS, 1, false),
    ("storm r u --rounds=1000000 a", DEFAULTS, 1_000_000, false),
    ("storm r --rounds +7 u a", DEFAULTS, 7, false),
    (
        "storm --workers 0 r u a",
        [1_048_576, 256, 0, 32, 16],
        1,
        false,
    ),
    (
        "storm --workers=1024 --stuck r u a",
        [1_048_576, 256, 1_024, 32, 16],
        1,
        true,
    ),
    ("storm -- r u a", DEFAULTS, 1, false),
    (
        "storm --stuck r --max=6 --threshold=2 --workers=5 u --groups=3 --rounds=9 --rules=4 a",
        [4, 3, 5, 2, 6],
        9,
        true,
    ),
    (
        "storm --rules 5 --rounds 50 --workers 2 r u a",
        [5, 256, 2, 32, 16],
        50,
        false,
    ),
];

// The row's words ask for this storm.
fn assert_storm(rt: &impl Abort, alloc: Global, row: &AskedStorm) {
    let (text, numbers, rounds, has_stuck_worker) = *row;
    let words = words_of(rt, alloc, "lpmtool", text);
    let Ok(line) = options(alloc, words.as_slice()) else {
        panic!(rt; "refused");
    };
    let found = (parts(&line), storm_parts(&line));
    let storm = Some((rounds, has_stuck_worker));
    let wanted = ("storm", ["r", "u", "a"], numbers);
    assert_at(rt, text, found, (wanted, storm));
}

#[test]
fn storm_with_its_defaults_and_each_option(rt: HostRuntime) {
    for row in &STORMS {
        assert_storm(&rt, rt.alloc(), row);
    }
}

// The words ask for an explanation of these addresses.
fn assert_addresses(rt: &impl Abort, line: &CommandLine<'_>, wanted: &[u32]) {
    match line {
        CommandLine::Explain { addresses, .. } => {
            assert!(rt; addresses.as_slice() == wanted);
        }
        _ => assert!(rt; false, "another command"),
    }
}

#[test]
fn explain_has_addresses(rt: HostRuntime) {
    let text = "explain r 10.1.2.3 0.0.0.0 --rules 7 255.255.255.255 10.1.2.3";
    let words = words_of(&rt, rt.alloc(), "lpmtool", text);
    let Ok(line) = options(rt.alloc(), &words) else {
        panic!(rt; "refused");
    };
    assert_addresses(&rt, &line, &[0x0a01_0203, 0, 0xffff_ffff, 0x0a01_0203]);
}

// The place of the first word that is no address, and the word.
fn bad_address<'a>(refused: &Refused<'a>) -> Option<(usize, &'a str)> {
    match *refused {
        Refused::BadAddress { number, word } => Some((number, word)),
        _ => None,
    }
}

#[test]
fn explain_names_the_word_that_is_no_address(rt: HostRuntime) {
    let words = ["lpmtool", "explain", "r", "1.2.3.4", "1.2.3.256", "x"];
    let refused = options(rt.alloc(), &words).err().expect(&rt, "a refusal");
    assert_at(&rt, (), bad_address(&refused), Some((2, "1.2.3.256")));
    let text = "ADDRESS 2, `1.2.3.256`: bad address";
    assert_shown(&rt, rt.alloc(), &refused, text);
}
