use command_words::{
    BatchWords, Command, FollowWords, GenWords, GoalWords, ProveWords, ServeWords, SingleWords,
    StillCommand, TakeWords, VerifyWords, WaitingCommand, WordsFault, WriteWords, read_words,
};
use road_network::AnswerKind;
use std::alloc::{AllocError, Global};
use std::process::Abort;

/// The first word, if there is one, and those of the line behind it.
fn words_of(alloc: Global, first: &str, line: &str) -> Result<Vec<String>, AllocError> {
    let mut words = Vec::new(alloc);
    if first != "" {
        words.push(String::from_str(alloc, first)?)?;
    }
    for word in line.split(' ') {
        words.push(String::from_str(alloc, word)?)?;
    }
    Ok(words)
}

/// What the words ask for, as text.
fn read(alloc: Global, first: &str, line: &str) -> Result<String, AllocError> {
    let words = words_of(alloc, first, line)?;
    match read_words(alloc, &words) {
        Ok(command) => shown(alloc, &command),
        Err(fault) => format!(in alloc; "{fault}"),
    }
}

fn shown(alloc: Global, command: &Command) -> Result<String, AllocError> {
    match command {
        Command::Still(command) => shown_still(alloc, command),
        Command::Waiting(WaitingCommand::Lanes(asked)) => {
            String::from_str(alloc, asked.stem.text())
        }
        Command::Waiting(WaitingCommand::Serve(asked)) => shown_serve(alloc, asked),
        Command::Waiting(WaitingCommand::Follow(FollowWords::Write(asked))) => {
            shown_write(alloc, asked)
        }
        Command::Waiting(WaitingCommand::Follow(FollowWords::Take(asked))) => {
            shown_take(alloc, asked)
        }
    }
}

fn shown_still(alloc: Global, command: &StillCommand) -> Result<String, AllocError> {
    match command {
        StillCommand::Single(asked) => shown_single(alloc, asked),
        StillCommand::Goal(asked) => shown_goal(alloc, asked),
        StillCommand::Check(files) => listed(alloc, "check", &[], files.as_slice()),
        StillCommand::Batch(asked) => shown_batch(alloc, asked),
        StillCommand::Gen(asked) => shown_gen(alloc, asked),
        StillCommand::Prove(asked) => shown_prove(alloc, asked),
        StillCommand::Verify(asked) => shown_verify(alloc, asked),
    }
}

/// A name, and behind it numbers and the names of files.
fn listed(
    alloc: Global,
    name: &str,
    numbers: &[u32],
    files: &[&str],
) -> Result<String, AllocError> {
    let mut text = String::from_str(alloc, name)?;
    for number in numbers {
        write!(text, " {number}")?;
    }
    for file in files {
        write!(text, " {file:?}")?;
    }
    Ok(text)
}

fn shown_single(alloc: Global, asked: &SingleWords) -> Result<String, AllocError> {
    let name = match asked.kind {
        AnswerKind::Costs => "costs",
        AnswerKind::Walks => "walks",
    };
    let query = asked.query.query();
    let numbers = [query.from, query.to, query.budget, asked.workers.get()];
    listed(alloc, name, &numbers, asked.files.as_slice())
}

fn shown_goal(alloc: Global, asked: &GoalWords) -> Result<String, AllocError> {
    let query = asked.query.query();
    let numbers = [query.from, query.to, query.budget];
    listed(alloc, "goal", &numbers, asked.files.as_slice())
}

/// The name of the file of pairs stands last.
fn shown_batch(alloc: Global, asked: &BatchWords) -> Result<String, AllocError> {
    let numbers = [asked.limits.budget.get(), asked.limits.workers.get()];
    let mut text = listed(alloc, "batch", &numbers, asked.files.as_slice())?;
    let pairs = asked.pairs.text();
    write!(text, " of {pairs:?}")?;
    Ok(text)
}

/// The number of the file stands behind the plan.
fn shown_gen(alloc: Global, asked: &GenWords) -> Result<String, AllocError> {
    let plan = &asked.plan;
    let (start, side) = (plan.start, plan.side.get());
    let (criteria, pairs) = (plan.criteria.get(), plan.pairs.get());
    let (budget, workers) = (asked.limits.budget.get(), asked.limits.workers.get());
    match asked.file {
        Some(file) => {
            let numbers = [start, side, criteria, pairs, file.get(), budget, workers];
            listed(alloc, "file", &numbers, &[])
        }
        None => {
            let numbers = [start, side, criteria, pairs, budget, workers];
            listed(alloc, "all", &numbers, &[])
        }
    }
}

/// The addresses stand last, that of the operator behind the other.
fn shown_serve(alloc: Global, asked: &ServeWords) -> Result<String, AllocError> {
    let (budget, workers) = (asked.limits.budget.get(), asked.limits.workers.get());
    let numbers = [
        asked.lanes.get(),
        asked.links.get(),
        asked.epoch,
        budget,
        workers,
    ];
    let mut text = listed(alloc, "serve", &numbers, asked.files.as_slice())?;
    let (listen, operator) = (asked.listen.text(), asked.operator.text());
    write!(text, " at {listen:?} {operator:?}")?;
    Ok(text)
}

fn shown_prove(alloc: Global, asked: &ProveWords) -> Result<String, AllocError> {
    let query = asked.query.query();
    let numbers = [query.from, query.to, query.budget, asked.workers.get()];
    listed(alloc, "prove", &numbers, asked.files.as_slice())
}

/// The name of the certificate stands last.
fn shown_verify(alloc: Global, asked: &VerifyWords) -> Result<String, AllocError> {
    let mut text = listed(alloc, "verify", &[], asked.files.as_slice())?;
    let cert = asked.cert.text();
    write!(text, " of {cert:?}")?;
    Ok(text)
}

/// The operator's script stands last.
fn shown_write(alloc: Global, asked: &WriteWords) -> Result<String, AllocError> {
    let mut text = listed(alloc, "write", &[asked.epoch], asked.files.as_slice())?;
    let operator = asked.operator.text();
    write!(text, " of {operator:?}")?;
    Ok(text)
}

/// The stems stand last, that of the feeds first.
fn shown_take(alloc: Global, asked: &TakeWords) -> Result<String, AllocError> {
    let (budget, workers) = (asked.limits.budget.get(), asked.limits.workers.get());
    let numbers = [
        asked.links.get(),
        asked.count.get(),
        asked.epoch,
        budget,
        workers,
    ];
    let mut text = listed(alloc, "take", &numbers, asked.files.as_slice())?;
    let (feeds, sessions) = (asked.feeds.text(), asked.stem.text());
    write!(text, " of {feeds:?} {sessions:?}")?;
    Ok(text)
}

/// Whether a text begins with a name and goes on with what stands beside it.
fn is_joined(got: Result<String, AllocError>, name: &str, rest: &str) -> bool {
    match got {
        Ok(got) => got.strip_prefix(name) == Some(rest),
        Err(_) => false,
    }
}

/// The words of each row, behind the first one, ask for what stands beside them, behind a name.
fn assert_rows(rt: &impl Abort, alloc: Global, first: &str, name: &str, rows: &[(&str, &str)]) {
    for (line, asked) in rows {
        assert!(rt;
            is_joined(read(alloc, first, line), name, asked),
            "{first} {line}"
        );
    }
}

/// The words of each line, behind the first one, are those of no command.
fn assert_refused(rt: &impl Abort, alloc: Global, first: &str, lines: &[&str]) {
    for line in lines {
        assert!(rt;
            is_joined(read(alloc, first, line), "", REFUSED),
            "{first} {line}"
        );
    }
}

/// Words behind `costs` and `one`, and what they ask for: the ends, the budget, the workers and the files.
const ASKED_SINGLE: &[(&str, &str)] = &[
    (
        "--from 1 --to 4 A.gr B.gr",
        r#"1 4 10000000 1 "A.gr" "B.gr""#,
    ),
    (
        "--to=4 --from=01 A.gr B.gr",
        r#"1 4 10000000 1 "A.gr" "B.gr""#,
    ),
    (
        "A --budget 7 B --to 4 C --from 1 D",
        r#"1 4 7 1 "A" "B" "C" "D""#,
    ),
    (
        "--from 1 --to 4 -- -x.gr --",
        r#"1 4 10000000 1 "-x.gr" "--""#,
    ),
    ("--from 1 --to 4 - ", r#"1 4 10000000 1 "-" """#),
    (
        "--from 4294967295 --to 0 --budget 50000000 A B",
        r#"4294967295 0 50000000 1 "A" "B""#,
    ),
    (
        "--workers 64 A B --from 1 --to 1 --budget 1",
        r#"1 1 1 64 "A" "B""#,
    ),
];

#[test]
fn reads_the_words_of_one_query(rt: HostRuntime) {
    assert_rows(&rt, rt.alloc(), "costs", "costs ", ASKED_SINGLE);
    assert_rows(&rt, rt.alloc(), "one", "walks ", ASKED_SINGLE);
}

/// Words behind `goal`, and what they ask for: the ends, the budget and the files.
const GOAL: &[(&str, &str)] = &[
    (
        "--from 1 --to 4 A.gr B.gr",
        r#"goal 1 4 10000000 "A.gr" "B.gr""#,
    ),
    (
        "A --budget=50000000 B --to 4 C --from 01 D",
        r#"goal 1 4 50000000 "A" "B" "C" "D""#,
    ),
    ("--from 1 --to 4 --budget 50000001 A B", REFUSED),
    ("--from 1 --to 4 --budget 0 A B", REFUSED),
    ("--from 1 --to 4 --workers 1 A B", REFUSED),
    ("--from 1 --to 4 A", REFUSED),
    ("--to 4 A B", REFUSED),
];

#[test]
fn reads_the_words_of_goal(rt: HostRuntime) {
    assert_rows(&rt, rt.alloc(), "goal", "", GOAL);
}

/// Words, and what they ask for.
const ASKED_CHECK: &[(&str, &str)] = &[
    ("check A.gr B.gr", r#"check "A.gr" "B.gr""#),
    ("check A B C", r#"check "A" "B" "C""#),
    ("check A B C D", r#"check "A" "B" "C" "D""#),
    ("check -- -x.gr y.gr", r#"check "-x.gr" "y.gr""#),
];

#[test]
fn reads_the_words_of_check(rt: HostRuntime) {
    assert_rows(&rt, rt.alloc(), "", "", ASKED_CHECK);
}

/// Words behind `batch`, and what they ask for: the budget, the workers, the files and the file of pairs.
const ASKED_BATCH: &[(&str, &str)] = &[
    (
        "--pairs P A.gr B.gr",
        r#"batch 10000000 1 "A.gr" "B.gr" of "P""#,
    ),
    (
        "A B --workers=3 C --budget=4 --pairs=17 D",
        r#"batch 4 3 "A" "B" "C" "D" of "17""#,
    ),
    ("--pairs= -- A -B", r#"batch 10000000 1 "A" "-B" of """#),
];

#[test]
fn reads_the_words_of_batch(rt: HostRuntime) {
    assert_rows(&rt, rt.alloc(), "batch", "", ASKED_BATCH);
}

/// Words behind `gen`, and what they ask for: start, side, criteria, pairs, the file where it is one, budget and workers.
const ASKED_GEN: &[(&str, &str)] = &[
    (
        "--start 1 --side 2 --criteria 2 --pairs 1 --file 0",
        "file 1 2 2 1 0 10000000 1",
    ),
    (
        "--file=4 --pairs=500 --criteria=4 --side=1000 --start=4294967295",
        "file 4294967295 1000 4 500 4 10000000 1",
    ),
    (
        "--start 0 --side 2 --criteria 3 --pairs 1 --file 03 --workers 64 --budget 50000000",
        "file 0 2 3 1 3 50000000 64",
    ),
    (
        "--start 0 --side 2 --criteria 3 --pairs 1 --file 3 --workers 1 --budget 1",
        "file 0 2 3 1 3 1 1",
    ),
    (
        "--start 1 --side 2 --criteria 2 --pairs 1",
        "all 1 2 2 1 10000000 1",
    ),
    (
        "--pairs 500 --criteria 4 --side 1000 --start 0 --workers 8 --budget 7",
        "all 0 1000 4 500 7 8",
    ),
];

#[test]
fn reads_the_words_of_gen(rt: HostRuntime) {
    assert_rows(&rt, rt.alloc(), "gen", "", ASKED_GEN);
}

/// Words of `lanes`, and with what the names of the sessions' scripts begin, if they are words of it.
const LANES: &[(&str, &str)] = &[
    ("lanes --operator op --sessions day A B", "day"),
    ("lanes A --lanes=16 --sessions= B --operator=op C", ""),
    ("lanes --operator op --sessions day --lanes 17 A B", REFUSED),
    ("lanes --operator op --sessions day --links 1 A B", REFUSED),
    ("lanes --operator op A B", REFUSED),
];

#[test]
fn reads_the_words_of_lanes(rt: HostRuntime) {
    assert_rows(&rt, rt.alloc(), "", "", LANES);
}

/// Words behind `serve`, and what they ask for: the lanes, the links, the first epoch, budget, workers, files and addresses.
const SERVE: &[(&str, &str)] = &[
    (
        "--listen here --operator there A B",
        r#"serve 1 1000000000 0 10000000 1 "A" "B" at "here" "there""#,
    ),
    (
        "A --links=7 --operator=127.0.0.1:2 --lanes 16 B --epoch 5 --listen= --budget 3 --workers 2 C",
        r#"serve 16 7 5 3 2 "A" "B" "C" at "" "127.0.0.1:2""#,
    ),
    ("--listen here A B", REFUSED),
    ("--operator there A B", REFUSED),
    ("--listen here --operator there --links 0 A B", REFUSED),
    (
        "--listen here --operator there --links 1000000001 A B",
        REFUSED,
    ),
    ("--listen here --operator there --lanes 17 A B", REFUSED),
    ("--listen here --operator there --sessions day A B", REFUSED),
];

#[test]
fn reads_the_words_of_serve(rt: HostRuntime) {
    assert_rows(&rt, rt.alloc(), "serve", "", SERVE);
}

/// Words behind `prove`, and what they ask for: the ends, the budget, the workers and the files.
const PROVE: &[(&str, &str)] = &[
    (
        "--from 1 --to 4 A.gr B.gr",
        r#"prove 1 4 1000000 1 "A.gr" "B.gr""#,
    ),
    (
        "A --budget 4000000 B --to 4 C --workers=64 --from 1 D",
        r#"prove 1 4 4000000 64 "A" "B" "C" "D""#,
    ),
    ("--from 1 --to 4 --budget 4000001 A B", REFUSED),
    ("--from 1 --to 4 --budget 0 A B", REFUSED),
    ("--from 1 --to 4 --cert C A B", REFUSED),
    ("--from 1 A B", REFUSED),
];

#[test]
fn reads_the_words_of_prove(rt: HostRuntime) {
    assert_rows(&rt, rt.alloc(), "prove", "", PROVE);
}

/// Words behind `verify`, and what they ask for: the files and the certificate.
const VERIFY: &[(&str, &str)] = &[
    ("--cert C A.gr B.gr", r#"verify "A.gr" "B.gr" of "C""#),
    ("A B --cert=x C D", r#"verify "A" "B" "C" "D" of "x""#),
    ("--cert= -- A -B", r#"verify "A" "-B" of """#),
    ("A B", REFUSED),
    ("--cert C A", REFUSED),
    ("--cert C --cert C A B", REFUSED),
    ("--cert C --budget 1 A B", REFUSED),
    ("--cert C --from 1 --to 4 A B", REFUSED),
];

#[test]
fn reads_the_words_of_verify(rt: HostRuntime) {
    assert_rows(&rt, rt.alloc(), "verify", "", VERIFY);
}

/// Words behind `follow`, and what they ask for: the first epoch, the files and the script; or the feeds, the lanes, the
/// first epoch, budget, workers, files and stems.
const FOLLOW: &[(&str, &str)] = &[
    ("--write op A B", r#"write 0 "A" "B" of "op""#),
    ("A --epoch=7 B --write= C", r#"write 7 "A" "B" "C" of """#),
    (
        "--feeds f --sessions day A B",
        r#"take 1 1 0 10000000 1 "A" "B" of "f" "day""#,
    ),
    (
        "A --links 64 B --lanes=16 --epoch 5 --budget 3 --workers 2 --sessions= --feeds= C",
        r#"take 64 16 5 3 2 "A" "B" "C" of "" """#,
    ),
    ("A B", REFUSED),
    ("--feeds f A B", REFUSED),
    ("--sessions day A B", REFUSED),
    ("--feeds f --sessions day --links 65 A B", REFUSED),
    ("--feeds f --sessions day --links 0 A B", REFUSED),
    ("--feeds f --sessions day --lanes 17 A B", REFUSED),
    ("--write op --feeds f --sessions day A B", REFUSED),
    ("--write op --feeds f A B", REFUSED),
    ("--write op --sessions day A B", REFUSED),
    ("--write op --links 1 A B", REFUSED),
    ("--write op --lanes 1 A B", REFUSED),
    ("--write op --budget 1 A B", REFUSED),
    ("--write op --workers 1 A B", REFUSED),
    ("--write op --write op A B", REFUSED),
    ("--write op A", REFUSED),
];

#[test]
fn reads_the_words_of_follow(rt: HostRuntime) {
    assert_rows(&rt, rt.alloc(), "follow", "", FOLLOW);
}

/// Words behind `gen` that are those of no command.
const OTHER_GEN: &[&str] = &[
    "--start 1 --side 2 --criteria 2 --pairs 1 --file",
    "--start 1 --side 2 --criteria 2 --pairs 1 --file 3",
    "--start 1 --side 2 --criteria 4 --pairs 1 --file 5",
    "--start 1 --side 2 --criteria 2 --pairs 1 --file 0 A.gr",
    "--start 1 --side 2 --criteria 2 --pairs 1 --file 0 --file 0",
    "--start 1 --side 2 --criteria 2 --pairs 1 --file +0",
    "--start 1 --side 2 --criteria 2 --pairs P --file 0",
    "--start 4294967296 --side 2 --criteria 2 --pairs 1 --file 0",
    "--start 1 --side 1 --criteria 2 --pairs 1 --file 0",
    "--start 1 --side 1001 --criteria 2 --pairs 1 --file 0",
    "--start 1 --side 2 --criteria 1 --pairs 1 --file 0",
    "--start 1 --side 2 --criteria 5 --pairs 1 --file 0",
    "--start 1 --side 2 --criteria 2 --pairs 0 --file 0",
    "--start 1 --side 2 --criteria 2 --pairs 501 --file 0",
    "--start 1 --side 2 --criteria 2 --pairs 1 --file 0 --budget 0",
    "--start 1 --side 2 --criteria 2 --pairs 1 --file 0 --budget 50000001",
    "--start 1 --side 2 --criteria 2 --pairs 1 --file 0 --workers 0",
    "--start 1 --side 2 --criteria 2 --pairs 1 --file 0 --workers 65",
    "--start 1 --side 2 --criteria 2 --file 0",
    "--start 1 --side 2 --pairs 1 --file 0",
    "--start 1 --criteria 2 --pairs 1 --file 0",
    "--side 2 --criteria 2 --pairs 1 --file 0",
];

/// Words behind `costs` and `one` that are those of no command.
const OTHER_SINGLE: &[&str] = &[
    "--from 1 A B",
    "--from 1 --to 4 A",
    "--from 1 --to 4 A B C D E",
    "--from +1 --to 4 A B",
    "--from 4294967296 --to 4 A B",
    "--from 1 --to 4 --budget 0 A B",
    "--from 1 --to 4 --budget 50000001 A B",
    "--from 1 --to 4 --budget= A B",
    "--from 1 --from 1 --to 4 A B",
    "--fro 1 --to 4 A B",
    "--from 1 --to 4 -x A B",
    "--from -1 --to 4 A B",
    "--from 1 --to 4 --help A B",
    "--from 1 --to 4 --workers 0 A B",
    "--from 1 --to 4 --workers 65 A B",
    "--from 1 --to 4 --pairs P A B",
];

/// Words that are those of no command.
const OTHERS: &[&str] = &[
    "check",
    "check A.gr",
    "check A B C D E",
    "check --from 1 A B",
    "check --help A B",
    "Check A B",
    "path A.gr B.gr",
    "check --workers 2 A B",
    "Costs --from 1 --to 4 A B",
    "batch A B",
    "batch --pairs P A",
    "batch --pairs P A B C D E",
    "batch --pairs P --pairs Q A B",
    "batch --pairs P --from 1 A B",
    "batch --pairs P --workers 65 A B",
    "batch --pairs P --budget 0 A B",
    "batch --pairs -x A B",
    "",
];

const REFUSED: &str = "the words are those of no command";

#[test]
fn refuses_other_words_of_one_query(rt: HostRuntime) {
    assert_refused(&rt, rt.alloc(), "costs", OTHER_SINGLE);
    assert_refused(&rt, rt.alloc(), "one", OTHER_SINGLE);
}

#[test]
fn refuses_other_words_of_gen(rt: HostRuntime) {
    assert_refused(&rt, rt.alloc(), "gen", OTHER_GEN);
}

#[test]
fn refuses_other_words(rt: HostRuntime) {
    assert_refused(&rt, rt.alloc(), "", OTHERS);
}

#[test]
fn refuses_no_words(rt: HostRuntime) {
    let refused = match read_words(rt.alloc(), &[]) {
        Ok(_) => false,
        Err(fault) => fault == WordsFault::Refused,
    };
    assert!(rt; refused, "no words are those of no command");
}
