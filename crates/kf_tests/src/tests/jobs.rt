// Words, and what they ask for.
use crate::tests::words_of;
use kf_top::{GainWord, Job, WordsError, read_words};
use std::process::Abort;

// The command `leak` with its gain.
fn leak_by(gain: &GainWord) -> &'static str {
    match gain {
        GainWord::Bayes => "leak bayes",
        GainWord::Tries(2) => "leak tries:2",
        GainWord::Tries(_) => "leak tries",
        GainWord::Guessing => "leak guessing",
        GainWord::Table(_) => "leak table",
    }
}

// The command `make` with its number.
fn made_of(count: u32) -> &'static str {
    match count {
        1 => "make 1",
        60 => "make 60",
        _ => "make",
    }
}

// The command `attack` with its gain.
fn attack_by(gain: &GainWord) -> &'static str {
    match gain {
        GainWord::Bayes => "attack bayes",
        GainWord::Table(_) => "attack table",
        _ => "attack",
    }
}

// The command `lines` with its gain.
fn lines_by(gain: &GainWord) -> &'static str {
    match gain {
        GainWord::Bayes => "lines bayes",
        GainWord::Table(_) => "lines table",
        _ => "lines",
    }
}

// The command `reach` with its probability.
fn reached(num: u32, den: u32) -> &'static str {
    match (num, den) {
        (1, 1) => "reach 1/1",
        (999_999_999, 999_999_999) => "reach 1",
        _ => "reach",
    }
}

// The command `choice` with its probability.
fn chosen_by(num: u32, den: u32) -> &'static str {
    match (num, den) {
        (1, 2) => "choice 1/2",
        (999_999_998, 999_999_999) => "choice nearly 1",
        _ => "choice",
    }
}

// A job's command, file and turns.
fn parts(job: &Job) -> (&'static str, &str, u32) {
    match job {
        Job::Hyper { file, turns } => ("hyper", file.as_str(), *turns),
        Job::Traces { file, turns } => ("traces", file.as_str(), *turns),
        Job::Channel { file, turns } => ("channel", file.as_str(), *turns),
        Job::Trail { file, turns } => ("trail", file.as_str(), *turns),
        Job::Make { n, turns } => (made_of(*n), "", *turns),
        Job::Leak { file, gain, turns } => (leak_by(gain), file.as_str(), *turns),
        Job::Refine { a, turns, .. } => ("refine", a.as_str(), *turns),
        Job::Check { a, turns, .. } => ("check", a.as_str(), *turns),
        Job::Attack { file, gain, turns } => (attack_by(gain), file.as_str(), *turns),
        Job::Reach {
            file,
            num,
            den,
            turns,
        } => (reached(*num, *den), file.as_str(), *turns),
        Job::Capacity { file, turns } => ("capacity", file.as_str(), *turns),
        Job::Covers { a, turns, .. } => ("covers", a.as_str(), *turns),
        Job::Quiet { file, turns, .. } => ("quiet", file.as_str(), *turns),
        Job::Blame { file, turns } => ("blame", file.as_str(), *turns),
        Job::Lines { file, gain, turns } => (lines_by(gain), file.as_str(), *turns),
        Job::Cascade { a, turns, .. } => ("cascade", a.as_str(), *turns),
        Job::Parallel { a, turns, .. } => ("parallel", a.as_str(), *turns),
        Job::Choice {
            a,
            num,
            den,
            turns,
            ..
        } => (chosen_by(*num, *den), a.as_str(), *turns),
    }
}

// A job on two programs: its command and the files that it names, of which the first is a certificate or is empty.
fn files_of(job: &Job) -> (&'static str, &str, &str, &str) {
    match job {
        Job::Refine { a, b, json, .. } => {
            let command = if *json { "refine --json" } else { "refine" };
            (command, "", a.as_str(), b.as_str())
        }
        Job::Check { cert, a, b, .. } => ("check", cert.as_str(), a.as_str(), b.as_str()),
        Job::Cascade { a, b, .. } => ("cascade", "", a.as_str(), b.as_str()),
        Job::Parallel { a, b, .. } => ("parallel", "", a.as_str(), b.as_str()),
        Job::Covers { a, b, .. } => ("covers", "", a.as_str(), b.as_str()),
        Job::Choice { a, b, num, den, .. } => {
            (chosen_by(*num, *den), "", a.as_str(), b.as_str())
        }
        _ => ("", "", "", ""),
    }
}

fn job_of(rt: &(impl Abort + AllocGlobal), line: &str) -> Result<Job, WordsError> {
    read_words(rt.alloc(), &words_of(rt, line))
}

// A job's command, file and turns, as `parts` gives them.
type Parts = (&'static str, &'static str, u32);

fn asks_for(rt: &(impl Abort + AllocGlobal), line: &str, want: &Parts) -> bool {
    match job_of(rt, line) {
        Ok(job) => parts(&job) == *want,
        Err(_) => false,
    }
}

const TAKEN: [(&str, Parts); 29] = [
    ("kuifje hyper p.kf", ("hyper", "p.kf", 1024)),
    ("kuifje traces p.kf", ("traces", "p.kf", 1024)),
    ("kuifje channel p.kf", ("channel", "p.kf", 1024)),
    ("kuifje trail p.kf --turns 9", ("trail", "p.kf", 9)),
    ("kuifje capacity p.kf --turns 9", ("capacity", "p.kf", 9)),
    (
        "kuifje attack p.kf --gain bayes",
        ("attack bayes", "p.kf", 1024),
    ),
    (
        "kuifje --gain table:g.json attack p.kf",
        ("attack table", "p.kf", 1024),
    ),
    ("kuifje --turns 5 lines p.kf", ("lines bayes", "p.kf", 5)),
    (
        "kuifje --gain table:g.json lines p.kf",
        ("lines table", "p.kf", 1024),
    ),
    ("kuifje reach p.kf 01/001", ("reach 1/1", "p.kf", 1024)),
    (
        "kuifje reach --turns 2 p.kf 999999999/999999999",
        ("reach 1", "p.kf", 2),
    ),
    ("kuifje make 00001 --turns 9", ("make 1", "", 9)),
    ("kuifje make 60", ("make 60", "", 1024)),
    ("--help hyper p.kf", ("hyper", "p.kf", 1024)),
    ("kuifje hyper --turns 5 p.kf", ("hyper", "p.kf", 5)),
    ("kuifje hyper p.kf --turns=5", ("hyper", "p.kf", 5)),
    ("kuifje --turns 5 hyper p.kf", ("hyper", "p.kf", 5)),
    ("kuifje hyper p.kf --turns 00005", ("hyper", "p.kf", 5)),
    ("kuifje hyper p.kf --turns 65535", ("hyper", "p.kf", 65535)),
    ("kuifje hyper -- p.kf", ("hyper", "p.kf", 1024)),
    ("kuifje hyper -- -p.kf", ("hyper", "-p.kf", 1024)),
    ("kuifje -- hyper --json", ("hyper", "--json", 1024)),
    ("kuifje hyper -", ("hyper", "-", 1024)),
    ("kuifje hyper ", ("hyper", "", 1024)),
    ("kuifje hyper hyper", ("hyper", "hyper", 1024)),
    (
        "kuifje leak p.kf --gain bayes",
        ("leak bayes", "p.kf", 1024),
    ),
    (
        "kuifje --gain=tries:00002 leak p.kf",
        ("leak tries:2", "p.kf", 1024),
    ),
    (
        "kuifje leak --gain guessing p.kf --turns 7",
        ("leak guessing", "p.kf", 7),
    ),
    (
        "kuifje leak p.kf --gain table:g.json",
        ("leak table", "p.kf", 1024),
    ),
];

#[test]
fn words_that_are_taken(rt: HostRuntime) {
    for (line, want) in &TAKEN {
        assert!(rt; asks_for(&rt, line, want), "{line}");
    }
}

// A command and the files of its job on two programs, as `files_of` gives them.
type OfTwo = (&'static str, &'static str, &'static str, &'static str);

fn asks_of_two(rt: &(impl Abort + AllocGlobal), line: &str, want: &OfTwo) -> bool {
    match job_of(rt, line) {
        Ok(job) => files_of(&job) == *want,
        Err(_) => false,
    }
}

const OF_TWO: [(&str, OfTwo); 8] = [
    ("kuifje refine p.kf q.kf", ("refine", "", "p.kf", "q.kf")),
    (
        "kuifje refine p.kf q.kf --json",
        ("refine --json", "", "p.kf", "q.kf"),
    ),
    (
        "kuifje --json refine p.kf --turns 3 p.kf",
        ("refine --json", "", "p.kf", "p.kf"),
    ),
    (
        "kuifje check c.json p.kf q.kf",
        ("check", "c.json", "p.kf", "q.kf"),
    ),
    ("kuifje cascade p.kf q.kf", ("cascade", "", "p.kf", "q.kf")),
    (
        "kuifje --turns 3 parallel q.kf p.kf",
        ("parallel", "", "q.kf", "p.kf"),
    ),
    (
        "kuifje choice p.kf --turns 3 q.kf 000000001/2",
        ("choice 1/2", "", "p.kf", "q.kf"),
    ),
    (
        "kuifje choice p.kf 1/2 999999998/999999999",
        ("choice nearly 1", "", "p.kf", "1/2"),
    ),
];

#[test]
fn words_of_two_programs(rt: HostRuntime) {
    for (line, want) in &OF_TWO {
        assert!(rt; asks_of_two(&rt, line, want), "{line}");
    }
}

fn is_usage(rt: &(impl Abort + AllocGlobal), line: &str) -> bool {
    matches!(job_of(rt, line), Err(WordsError::Usage))
}

const REFUSED: [&str; 52] = [
    "",
    "kuifje",
    "hyper p.kf",
    "kuifje ",
    "kuifje hyper",
    "kuifje p.kf hyper",
    "kuifje hyper p.kf q.kf",
    "kuifje hyper -p.kf",
    "kuifje hyper p.kf --turns 0",
    "kuifje hyper p.kf --turns 65536",
    "kuifje hyper p.kf --turns 000001",
    "kuifje hyper p.kf --turns",
    "kuifje hyper p.kf --turns=",
    "kuifje hyper p.kf --turns -5",
    "kuifje hyper p.kf --turns 5 6",
    "kuifje hyper p.kf --turn 5",
    "kuifje hyper p.kf --turns 5 --turns 6",
    "kuifje hyper p.kf --json",
    "kuifje hyper p.kf --json --json",
    "kuifje hyper p.kf --json=true",
    "kuifje hyper p.kf --gain bayes",
    "kuifje leak p.kf",
    "kuifje leak p.kf --gain tries:0",
    "kuifje leak p.kf --gain table:",
    "kuifje leak p.kf --gain bayes --json",
    "kuifje refine p.kf",
    "kuifje refine p.kf q.kf r.kf",
    "kuifje refine p.kf q.kf --gain bayes",
    "kuifje attack p.kf",
    "kuifje attack p.kf --gain bayes --json",
    "kuifje lines p.kf --json",
    "kuifje lines p.kf --gain none",
    "kuifje reach p.kf",
    "kuifje reach p.kf 3/2",
    "kuifje reach p.kf 1/2 --gain bayes",
    "kuifje capacity p.kf --json",
    "kuifje cascade p.kf q.kf --json",
    "kuifje parallel p.kf",
    "kuifje choice p.kf 1/2",
    "kuifje choice p.kf q.kf 0000000001/2",
    "kuifje choice p.kf q.kf 2/1",
    "kuifje check p.kf q.kf",
    "kuifje check c.json p.kf q.kf --json",
    "kuifje hyperr p.kf",
    "kuifje --help",
    "kuifje -h",
    "kuifje help",
    "kuifje help p.kf",
    "kuifje hyper p.kf --help",
    "kuifje hyper --version",
    "kuifje -V",
    "kuifje hyper p.kf --colour red",
];

#[test]
fn words_that_are_refused(rt: HostRuntime) {
    for line in &REFUSED {
        assert!(rt; is_usage(&rt, line), "{line}");
    }
}
