//! Why a run isn't done, with its exit status and its note.
ghost use Rattle.std.specs.Prelude.{◌≡◌, ◌++◌, ℕ, List};
ghost use Rattle.route_io.specs.Sinks.{Sends};
ghost use Rattle.answer_writer.specs.Replies.{end_line};
ghost use Rattle.still_commands.specs.Outcome.{bad_cert, bad_files, failed_rule, note_of, status_of, fault_line};
ghost use Rattle.still_commands.specs.Stops.{script_name, script_outcome};

use crate::status::{
    BAD_CERT, BAD_FILE, BAD_FILES, BAD_PAIRS, BAD_WORDS, FAILED_RULE, FOLDER_FAILED, LONG_SCRIPT,
    OUT_FAILED, REFUSED, TOWN_FAILED, WANT_OF_MEMORY,
};
use answer_writer::{Piece, put_line};
use arc_graph::{Disagreement, JoinFault};
use cert_rules::Rule;
use command_words::WordsFault;
use gr_reader::LineKind;
use itoa::Buffer;
use link_doors::TownFault;
use out_of_memory::OutOfMemory;
use route_io::sure::SureSink;
use route_io::{Sink, WriteFault, put_all};
use session_core::ReplyFault;
use std::alloc::Global;

/// A script: the operator's by its name, or a session's by how its name begins and by its number.
#[derive(Clone, Copy, Debug)]
pub enum Script<'a> {
    Operator { name: &'a str },
    Session { stem: &'a str, number: u32 },
}

/// Why a script wasn't read.
#[derive(Clone, Copy, Debug, PartialEq, Eq)]
pub enum ScriptFault {
    Folder,
    /// It has more bytes than a script may have.
    TooLong,
    OutOfMemory(OutOfMemory),
}

/// Why a run isn't done. Commands that wait for nobody are never stopped by a script or by the town.
#[derive(Clone, Copy, Debug)]
pub enum Stop<'a> {
    /// No command was read.
    Words(WordsFault),
    /// The folder failed; the note names this file.
    Folder {
        name: &'a str,
    },
    /// `out` failed or wanted memory.
    Out(WriteFault),
    /// This weight file has a faulty line.
    File {
        name: &'a str,
        line: u64,
        kind: LineKind,
    },
    /// The files were all read, and don't agree.
    Files(Disagreement),
    /// This file of pairs has a faulty line.
    Pairs {
        name: &'a str,
        line: u64,
        kind: LineKind,
    },
    /// This script wasn't read.
    Script {
        script: Script<'a>,
        fault: ScriptFault,
    },
    /// This certificate has a faulty line.
    Cert {
        name: &'a str,
        line: u64,
    },
    /// A rule fails at a label of this certificate.
    Rule {
        name: &'a str,
        rule: Rule,
        label: u32,
    },
    /// A line on `out` says why.
    Refused,
    /// The town failed, or one of its doors.
    Town,
    OutOfMemory(OutOfMemory),
}

impl Stop<'_> {
    ghost use Rattle.still_commands.specs.Stops.{outcome_of};

    /// The exit status.
    pub(crate) fn status(&self) -> u8
        ensures { result ≡ status_of (outcome_of self.now) }
    {
        match self {
            Stop::Words(WordsFault::Refused) => BAD_WORDS,
            Stop::Folder { .. } => FOLDER_FAILED,
            Stop::Script { fault, .. } => script_status(*fault),
            Stop::Out(WriteFault::Failed) => OUT_FAILED,
            Stop::File { .. } => BAD_FILE,
            Stop::Files(_) => BAD_FILES,
            Stop::Pairs { .. } => BAD_PAIRS,
            Stop::Cert { .. } => BAD_CERT,
            Stop::Rule { .. } => FAILED_RULE,
            Stop::Refused => REFUSED,
            Stop::Town => TOWN_FAILED,
            Stop::Words(WordsFault::OutOfMemory(_)) => WANT_OF_MEMORY,
            Stop::Out(WriteFault::OutOfMemory(_)) | Stop::OutOfMemory(_) => WANT_OF_MEMORY,
        }
    }

    /// Sends the note at once, one line, or nothing where `out` has the reason. Where memory for it is wanting, it goes in
    /// pieces.
    pub(crate) fn note<E: Sink>(&self, alloc: Global, err: &mut E) -> Result<(), WriteFault>
        ensures { Sends (E.state err.old) (E.state err.new)
            (note_of (outcome_of self.now)) result }
    {
        let mut line = SureSink::new(alloc);
        if self.put_note(&mut line).is_ok() {
            put_all(err, line.sent())
        } else {
            self.put_note(err)
        }
    }

    /// Sends the note.
    fn put_note<E: Sink>(&self, err: &mut E) -> Result<(), WriteFault>
        ensures { Sends (E.state err.old) (E.state err.new)
            (note_of (outcome_of self.now)) result }
    {
        use Piece::Text;
        match self {
            Stop::Words(WordsFault::Refused) => put_all(err, b"route: words\n"),
            Stop::Folder { name } => {
                put_line(err, &[Text("route: folder "), Text(name), Text("\n")])
            }
            Stop::Out(WriteFault::Failed) => put_all(err, b"route: out\n"),
            Stop::File { name, line, kind } => {
                note_line(err, "route: file ", name, *line, *kind)
            }
            Stop::Files(way) => note_disagreement(err, *way),
            Stop::Pairs { name, line, kind } => {
                note_line(err, "route: pairs ", name, *line, *kind)
            }
            Stop::Script { script, fault } => note_script(err, script, *fault),
            Stop::Cert { name, line } => note_cert(err, name, *line),
            Stop::Rule { name, rule, label } => note_rule(err, name, *rule, *label),
            Stop::Refused => Ok(()),
            Stop::Town => put_all(err, b"route: town\n"),
            Stop::Words(WordsFault::OutOfMemory(_))
            | Stop::Out(WriteFault::OutOfMemory(_))
            | Stop::OutOfMemory(_) => { put_all(err, b"route: memory\n") }
        }
    }
}

/// The exit status where a script wasn't read.
fn script_status(fault: ScriptFault) -> u8
    ensures { (name : List ℕ) → result ≡ status_of (script_outcome name fault) }
{
    match fault {
        ScriptFault::Folder => FOLDER_FAILED,
        ScriptFault::TooLong => LONG_SCRIPT,
        ScriptFault::OutOfMemory(_) => WANT_OF_MEMORY,
    }
}

/// Sends the note on a script that wasn't read.
fn note_script<E: Sink>(
    err: &mut E,
    script: &Script<'_>,
    fault: ScriptFault,
) -> Result<(), WriteFault>
    ensures { Sends (E.state err.old) (E.state err.new)
        (note_of (script_outcome (script_name script.now) fault)) result }
{
    match script {
        Script::Operator { name } => note_named_script(err, name, "", fault),
        Script::Session { stem, number } => {
            let mut digits = Buffer::new();
            note_named_script(err, stem, digits.format(*number), fault)
        }
    }
}

/// Sends the note on a script whose name has these parts.
fn note_named_script<'x, E: Sink>(
    err: &mut E,
    stem: &'x str,
    number: &'x str,
    fault: ScriptFault,
) -> Result<(), WriteFault>
    ensures { Sends (E.state err.old) (E.state err.new)
        (note_of (script_outcome (stem.now ++ number.now) fault)) result }
{
    use Piece::Text;
    match fault {
        ScriptFault::Folder => put_line(
            err,
            &[Text("route: folder "), Text(stem), Text(number), Text("\n")],
        ),
        ScriptFault::TooLong => put_line(
            err,
            &[
                Text("route: script "),
                Text(stem),
                Text(number),
                Text(" too long\n"),
            ],
        ),
        ScriptFault::OutOfMemory(_) => put_all(err, b"route: memory\n"),
    }
}

/// Sends the note on a faulty line, which begins with this head.
fn note_line<'x, E: Sink>(
    err: &mut E,
    head: &'x str,
    name: &'x str,
    line: u64,
    kind: LineKind,
) -> Result<(), WriteFault>
    ensures { Sends (E.state err.old) (E.state err.new)
        (head.now ++ fault_line name.now line kind ++ end_line) result }
{
    use Piece::{Number, Text};
    put_line(
        err,
        &[
            Text(head),
            Text(name),
            Text(" line"),
            Number(line),
            Text(" kind"),
            Number(u64::from(kind.number())),
            Text("\n"),
        ],
    )
}

/// Sends the note on a faulty line of a certificate.
fn note_cert<E: Sink>(err: &mut E, name: &str, line: u64) -> Result<(), WriteFault>
    ensures { Sends (E.state err.old) (E.state err.new)
        (note_of (bad_cert name.now line)) result }
{
    use Piece::{Number, Text};
    put_line(
        err,
        &[
            Text("route: cert "),
            Text(name),
            Text(" line"),
            Number(line),
            Text("\n"),
        ],
    )
}

/// Sends the note on a rule that fails.
fn note_rule<E: Sink>(err: &mut E, name: &str, rule: Rule, label: u32) -> Result<(), WriteFault>
    ensures { Sends (E.state err.old) (E.state err.new)
        (note_of (failed_rule name.now rule label)) result }
{
    use Piece::{Number, Text};
    put_line(
        err,
        &[
            Text("route: cert "),
            Text(name),
            Text(" rule"),
            Number(u64::from(rule.number())),
            Text(" label"),
            Number(u64::from(label)),
            Text("\n"),
        ],
    )
}

/// Sends the note on files that don't agree.
fn note_disagreement<E: Sink>(err: &mut E, way: Disagreement) -> Result<(), WriteFault>
    ensures { Sends (E.state err.old) (E.state err.new) (note_of (bad_files way)) result }
{
    use Piece::{Number, Text};
    match way {
        Disagreement::Sizes { file } => put_line(
            err,
            &[
                Text("route: files sizes file"),
                Number(u64::from(file)),
                Text("\n"),
            ],
        ),
        Disagreement::Ends { arc, file } => put_line(
            err,
            &[
                Text("route: files ends arc"),
                Number(u64::from(arc)),
                Text(" file"),
                Number(u64::from(file)),
                Text("\n"),
            ],
        ),
        Disagreement::ZeroArc { arc } => put_line(
            err,
            &[
                Text("route: files zero arc"),
                Number(u64::from(arc)),
                Text("\n"),
            ],
        ),
    }
}

impl From<WriteFault> for Stop<'_> {
    ghost use Rattle.std.specs.Prelude.{◌≡◌};
    ghost use Rattle.still_commands.specs.declared.stop.Stop.TheVariants as stop;

    ghost from_gives = { λ fault s. s ≡ stop.Out fault };

    fn from(fault: WriteFault) -> Self {
        Stop::Out(fault)
    }
}

impl From<TownFault> for Stop<'_> {
    ghost use Rattle.std.specs.Prelude.{◌≡◌};
    ghost use Rattle.still_commands.specs.Stops.{stop_of_town};

    ghost from_gives = { λ fault s. s ≡ stop_of_town fault };

    fn from(fault: TownFault) -> Self {
        match fault {
            TownFault::Failed => Stop::Town,
            TownFault::OutOfMemory(want) => Stop::OutOfMemory(want),
        }
    }
}

impl From<OutOfMemory> for Stop<'_> {
    ghost use Rattle.std.specs.Prelude.{◌≡◌};
    ghost use Rattle.still_commands.specs.declared.stop.Stop.TheVariants as stop;

    ghost from_gives = { λ want s. s ≡ stop.OutOfMemory want };

    fn from(want: OutOfMemory) -> Self {
        Stop::OutOfMemory(want)
    }
}

impl From<ReplyFault> for Stop<'_> {
    ghost use Rattle.std.specs.Prelude.{◌≡◌};
    ghost use Rattle.still_commands.specs.Stops.{stop_at};

    ghost from_gives = { λ fault s. s ≡ stop_at fault };

    fn from(fault: ReplyFault) -> Self {
        match fault {
            ReplyFault::Out(cut) => Stop::Out(cut),
            ReplyFault::OutOfMemory(want) => Stop::OutOfMemory(want),
        }
    }
}

impl From<JoinFault> for Stop<'_> {
    ghost use Rattle.std.specs.Prelude.{◌≡◌};
    ghost use Rattle.still_commands.specs.Stops.{stop_of};

    ghost from_gives = { λ fault s. s ≡ stop_of fault };

    fn from(fault: JoinFault) -> Self {
        match fault {
            JoinFault::Files(way) => Stop::Files(way),
            JoinFault::OutOfMemory(want) => Stop::OutOfMemory(want),
        }
    }
}
