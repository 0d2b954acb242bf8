ghost use Rattle.std.specs.Prelude.{◌≡◌, ◌↔◌, ◌+◌, ◌-◌, ◌<◌, ◌≤◌, ◌++◌, List, [], length, take, drop, false, true};
ghost use Rattle.std.specs.Prelude.{Ok, Err, Some, IfOk, OnOk, OnErr, IfSome, IfNone, IsTrue, MatchOption, min};
ghost use Rattle.std.specs.Prelude.{None, IfErr, ◌||◌, nat_lt, ℕ, is_some};
ghost use Rattle.std.specs.Result.{result_err};
ghost use Rattle.route_io.specs.Sources.{Reads, ReadsFrom};
ghost use Rattle.line_text.specs.Foreign.{IsSkipped, is_foreign};
ghost use Rattle.line_text.specs.Lines.{first_lf, without_cr};
ghost use Rattle.line_text.specs.Marks.{first_fault, line_fault};
ghost use Rattle.line_text.specs.Pieces.{Fills, LiesIn, Refills, TakesHeld, is_end, part_of, past_line};
ghost use Rattle.line_text.specs.Reading.{Advances, InLimits, begun, max_held, max_line, line_failed};
ghost use Rattle.line_text.specs.Requests.{HoldsLine, Requests, request_text};
ghost use Rattle.line_text.specs.RequestSteps.{EndsInput, TakesAsked, request_behind, skipped_with, without_held};

use crate::foreign::LineSeen;
use crate::{LineFault, LineLimits, Request};
use memchr::memchr;
use out_of_memory::OutOfMemory;
use route_io::{Failed, Source};
use std::alloc::Global;
use std::marker::Model;

/// The greatest limit of a line.
pub const MAX_LINE: u32 = 65_536;

/// The most bytes that a reader holds, twice the longest line: a line that is held in part always leaves room.
pub const MAX_HELD: usize = 2 * MAX_LINE as usize;

/// A part of the buffer.
#[derive(Clone, Copy)]
struct Span {
    start: usize,
    end: usize,
}

/// Reads the lines of a source, which may give its bytes in any pieces.
///
/// A line is looked at where it lies in the buffer. The bytes of a line that is held in part are moved only where the
/// buffer's end is reached.
#[derive(Drop)]
pub struct Lines {
    limits: LineLimits,
    buffer: Vec<u8>,
    text: Span,
    held: Span,
    number: u64,
    passed: u64,
    fault: Option<LineFault>,
    ended: bool,
    foreign: bool,
}

impl Model for Lines {
    ghost use Rattle.std.specs.Prelude.{◌≡◌, ◌-◌, vec_len};
    ghost use Rattle.line_text.specs.Pieces.{InBounds, LiesIn, part_of};
    ghost use Rattle.line_text.specs.Reading.{Lines, max_held};

    ghost Value = { Lines };

    ghost view = { λ lines. record {
      limits = lines.limits;
      held = part_of lines.buffer.items lines.held;
      text = part_of lines.buffer.items lines.text;
      number = lines.number;
      passed = lines.passed;
      fault = lines.fault;
      ended = lines.ended;
      foreign = lines.foreign;
    } };

    ghost invariant = { λ lines. (vec_len lines.buffer ≡ max_held)
        × LiesIn max_held lines.text × LiesIn max_held lines.held
        × InBounds lines.limits (lines.text.end - lines.text.start)
        (lines.held.end - lines.held.start) lines.number lines.passed };
}

impl Lines {
    /// Takes the one buffer that the reader has.
    pub fn new(alloc: Global, limits: LineLimits) -> Result<Lines, OutOfMemory>
        requires some { 1 ≤ limits.line }
        requires fits { limits.line ≤ max_line }
        ensures { IfOk result (λ lines. lines ≡ begun limits) }
    {
        Ok(Lines {
            limits,
            buffer: vec![in alloc; 0; MAX_HELD]?,
            text: Span { start: 0, end: 0 },
            held: Span { start: 0, end: 0 },
            number: 0,
            passed: 0,
            fault: None,
            ended: false,
            foreign: false,
        })
    }

    /// Makes the next line current and answers true, or false where the input has ended and no byte is left.
    ///
    /// `TooLong` is a line with more bytes before its LF than the limit, and `Total` one in which the first byte past
    /// the total stands. Where both are so, the byte that comes first decides, and at one byte it is `TooLong`.
    #[inline(always)]
    pub fn next_line<S: Source>(&mut self, source: &mut S) -> Result<bool, LineFault>
        // A kept fault is answered again, and nothing changes then. Nothing is read behind the end of input.
        ensures again { IfSome self.old.fault (λ fault. (result ≡ Err fault)
            × (self.new ≡ self.old) × (source.new ≡ source.old)) }
        ensures at_end { IsTrue self.old.ended → source.new ≡ source.old }

        // A fault is kept, and no other answer leaves one.
        ensures keeps_fault { self.new.fault ≡ result_err result }

        // Over every source the counts are those of lines, and at most one byte past the total is passed or held.
        // Where the source tells its bytes, the lines are those of what is left, in whatever pieces it comes, and no
        // byte is lost.
        ensures advances { IfNone self.old.fault
            (Advances self.old self.new (S.state source.old) (S.state source.new) result) }
        ensures in_limits { InLimits self.new }

        // The source's failures alone make a failed read.
        ensures source { ReadsFrom (S.state source.old) (S.state source.new)
            (line_failed self.old.fault result) }
    {
        if let Some(fault) = self.fault {
            return Err(fault);
        }
        let answer = self.read_line(source);
        self.fault = answer.err();
        answer
    }

    /// Makes the next line current and answers what it is, or `None` where the input has ended before the total and no
    /// byte is left.
    ///
    /// A line with more bytes before its LF than the limit is skipped, and its text is empty. `Total` is a line that
    /// doesn't end within as many bytes as the total, which are all that is read.
    pub fn next_request<S: Source>(&mut self, source: &mut S) -> Result<Option<Request>, LineFault>
        // A kept fault is answered again, and nothing changes then. Nothing is read behind the end of input.
        ensures again { IfSome self.old.fault (λ fault. (result ≡ Err fault)
            × (self.new ≡ self.old) × (source.new ≡ source.old)) }
        ensures at_end { IsTrue self.old.ended → source.new ≡ source.old }

        // A fault is kept, and no other answer leaves one.
        ensures keeps_fault { self.new.fault ≡ result_err result }

        // Where the source tells its bytes, the request is the next line of what is left, in whatever pieces it comes.
        ensures requests { IfNone self.old.fault
            (Requests self.old self.new (S.state source.old) (S.state source.new) result) }
        ensures in_limits { InLimits self.new }

        // Nothing is read while a whole line is held. The source's failures alone make a failed read.
        ensures held_first { HoldsLine self.old → source.new ≡ source.old }
        ensures source { ReadsFrom (S.state source.old) (S.state source.new)
            (line_failed self.old.fault result) }
    {
        if let Some(fault) = self.fault {
            return Err(fault);
        }
        let answer = self.read_request(source);
        self.fault = answer.err();
        answer
    }

    /// The current line without its LF and without one CR at its end. It is empty where there is none, and where it was
    /// skipped.
    pub fn text(&self) -> &[u8]
        ensures value { result.now ≡ self.now.text }
        ensures within { length result.now ≤ self.now.limits.line }
    {
        &self.buffer[self.text.start..self.text.end]
    }

    /// The current line's number, from 1. It is 0 before the first line.
    pub fn number(&self) -> u64
        ensures value { result ≡ self.now.number }
        ensures in_limits { InLimits self.now }
    {
        self.number
    }

    /// Whether the line that `next_request` took last, whole or long, is of another protocol: it is one of HTTP, whose last
    /// field begins with `HTTP/`, or holds a byte 0, as one of the first of each TLS connection does.
    pub fn is_foreign(&self) -> bool
        ensures { result ≡ self.now.foreign }
    {
        self.foreign
    }

    /// What `next_line` does where no fault is kept.
    fn read_line<S: Source>(&mut self, source: &mut S) -> Result<bool, LineFault>
        ensures at_end { IsTrue self.old.ended → source.new ≡ source.old }
        ensures advances { Advances self.old self.new
            (S.state source.old) (S.state source.new) result }
        ensures source { ReadsFrom (S.state source.old) (S.state source.new)
            (line_failed None result) }
    {
        self.drop_text();
        let mut searched = 0;
        loop {
            match self.take_line(searched) {
                Ok(true) => return Ok(true),
                Ok(false) => {}
                Err(fault) => return Err(fault),
            }
            searched = self.held().len();
            match self.refill(source) {
                Ok(true) => {}
                Ok(false) => return Ok(self.take_rest()),
                Err(Failed) => return Err(LineFault::Read),
            }
        }
    }

    /// What `next_request` does where no fault is kept.
    fn read_request<S: Source>(&mut self, source: &mut S) -> Result<Option<Request>, LineFault>
        ensures requests { Requests self.old self.new
            (S.state source.old) (S.state source.new) result }
        ensures held_first { HoldsLine self.old → source.new ≡ source.old }
        ensures at_end { IsTrue self.old.ended → source.new ≡ source.old }
        ensures source { ReadsFrom (S.state source.old) (S.state source.new)
            (line_failed None result) }
    {
        self.drop_text();
        let mut searched = 0;
        let mut skipped = None;
        loop {
            match self.take_request(searched, skipped) {
                Ok(Some(request)) => return Ok(Some(request)),
                Ok(None) => {}
                Err(fault) => return Err(fault),
            }
            skipped = self.skip_long(skipped);
            searched = self.held().len();
            match self.refill_within(source) {
                Ok(true) => {}
                Ok(false) => return Ok(self.take_last(skipped)),
                Err(Failed) => return Err(LineFault::Read),
            }
        }
    }

    /// There is no current line from here on.
    fn drop_text(&mut self)
        ensures { self.new ≡ record self.old { text = [] } }
    {
        self.text = Span { start: 0, end: 0 };
    }

    /// The bytes that are held.
    fn held(&self) -> &[u8]
        ensures { result.now ≡ self.now.held }
    {
        &self.buffer[self.held.start..self.held.end]
    }

    /// Takes the first line that is held, if its LF is held. It isn't among the first `searched` bytes.
    #[inline(always)]
    fn take_line(&mut self, searched: usize) -> Result<bool, LineFault>
        requires { searched ≤ first_lf self.old.held }
        ensures { TakesHeld self.old self.new result }
    {
        let Some(raw) = find_lf(self.held(), searched) else {
            let size = self.held().len();
            self.judge(size, size)?;
            return Ok(false);
        };
        self.judge(raw, raw + 1)?;
        self.pass(raw, raw + 1);
        Ok(true)
    }

    /// Takes the last line, which has no LF, if there is a byte of it.
    fn take_rest(&mut self) -> bool
        requires no_lf { first_lf self.old.held ≡ length self.old.held }
        requires within { first_fault self.old.limits self.old.passed self.old.held ≡ None }
        ensures some { IsTrue result
            → (0 < length self.old.held) × (self.new ≡ past_line self.old) }
        ensures none { result ≡ false → (self.old.held ≡ []) × (self.new ≡ self.old) }
    {
        let size = self.held().len();
        if size == 0 {
            return false;
        }
        self.pass(size, size);
        true
    }

    /// Takes the first line that is held, if its LF is held. `skipped` is what is seen of what was skipped of it before.
    /// The LF isn't among the first `searched` bytes.
    fn take_request(
        &mut self,
        searched: usize,
        skipped: Option<LineSeen>,
    ) -> Result<Option<Request>, LineFault>
        requires searched { searched ≤ first_lf self.old.held }
        requires no_text { self.old.text ≡ [] }
        requires counted { is_some skipped ≡ true → self.old.number < self.old.passed }
        ensures { TakesAsked self.old self.new skipped result }
    {
        let Some(raw) = find_lf(self.held(), searched) else {
            self.judge_total(self.held().len())?;
            return Ok(None);
        };
        self.judge_total(raw)?;
        Ok(Some(self.pass_request(raw, raw + 1, skipped)))
    }

    /// Takes the last line, which has no LF, if there is a byte of it. `skipped` is what is seen of what was skipped
    /// of it before.
    fn take_last(&mut self, skipped: Option<LineSeen>) -> Option<Request>
        requires no_lf { first_lf self.old.held ≡ length self.old.held }
        requires within { self.old.passed + length self.old.held < self.old.limits.total }
        requires no_text { self.old.text ≡ [] }
        requires counted { is_some skipped ≡ true → self.old.number < self.old.passed }
        ensures { EndsInput self.old self.new skipped result }
    {
        let size = self.held().len();
        if size == 0 && skipped.is_none() {
            return None;
        }
        Some(self.pass_request(size, size, skipped))
    }

    /// Takes the first `size` bytes that are held, of which `raw` stand before the LF, as the next line.
    fn pass_request(&mut self, raw: usize, size: usize, skipped: Option<LineSeen>) -> Request
        requires with_lf { raw ≤ size }
        requires held { size ≤ length self.old.held }
        requires total { self.old.passed + size ≤ self.old.limits.total }
        requires no_text { self.old.text ≡ [] }
        requires some { is_some skipped ≡ false → 0 < size }
        requires counted { is_some skipped ≡ true → self.old.number < self.old.passed + size }
        ensures request { result ≡ request_behind self.old.limits (is_some skipped) raw }
        ensures passed { self.new ≡ record self.old {
          held = drop size self.old.held;
          text = request_text result (take raw self.old.held);
          number = self.old.number + 1;
          passed = self.old.passed + size;
          foreign = self.new.foreign;
        } }
        ensures foreign { (front : List ℕ) → IsSkipped skipped front
            → self.new.foreign ≡ is_foreign (front ++ take raw self.old.held) }
    {
        self.foreign = LineSeen::behind(skipped, &self.held()[..raw]).is_foreign();
        if skipped.is_some() || raw as u64 > u64::from(self.limits.line) {
            self.skip(size);
            self.number += 1;
            return Request::Long;
        }
        self.pass(raw, size);
        Request::Whole
    }

    /// Skips what is held of a line that is longer than the limit, or was cut before, and answers what is seen of all that
    /// was skipped of it.
    fn skip_long(&mut self, skipped: Option<LineSeen>) -> Option<LineSeen>
        requires total { self.old.passed + length self.old.held ≤ self.old.limits.total }
        requires counted { is_some skipped ≡ true → self.old.number < self.old.passed }
        ensures long { is_some result
            ≡ (is_some skipped || nat_lt self.old.limits.line (length self.old.held)) }
        ensures skipped { self.new ≡ without_held self.old (is_some result) }
        ensures shows { (front : List ℕ) → IsSkipped skipped front
            → IsSkipped result (skipped_with front self.old.held (is_some result)) }
        ensures short { length self.new.held ≤ max_line }
        ensures counted { is_some result ≡ true → self.new.number < self.new.passed }
    {
        let size = self.held().len();
        if skipped.is_none() && size as u64 <= u64::from(self.limits.line) {
            return None;
        }
        let seen = LineSeen::behind(skipped, self.held());
        self.skip(size);
        Some(seen)
    }

    /// Passes the first `size` bytes that are held.
    fn skip(&mut self, size: usize)
        requires held { size ≤ length self.old.held }
        requires total { self.old.passed + size ≤ self.old.limits.total }
        ensures { self.new ≡ record self.old {
          held = drop size self.old.held;
          passed = self.old.passed + size;
        } }
    {
        self.held.start += size;
        self.passed += size as u64;
    }

    /// The fault of a line that doesn't end in its first `raw` bytes, where as many as the total are there.
    fn judge_total(&self, raw: usize) -> Result<(), LineFault>
        ensures within { OnOk result (self.now.passed + raw < self.now.limits.total) }
        ensures past { IfErr result (λ fault.
            (fault ≡ LineFault.Total) × (self.now.limits.total ≤ self.now.passed + raw)) }
    {
        if raw as u64 >= self.limits.total - self.passed {
            return Err(LineFault::Total);
        }
        Ok(())
    }

    /// The fault of a line that has `raw` bytes before its LF and `size` bytes with it.
    #[inline(always)]
    fn judge(&self, raw: usize, size: usize) -> Result<(), LineFault>
        requires { raw ≤ size }
        ensures fault { result_err result ≡ line_fault self.now.limits self.now.passed raw size }
        ensures short { OnOk result (raw ≤ max_line) }
        ensures some { OnErr result (0 < size) }
    {
        let room = self.limits.total - self.passed;
        let line = u64::from(self.limits.line);
        if raw as u64 > line && line <= room {
            return Err(LineFault::TooLong);
        }
        if size as u64 > room {
            return Err(LineFault::Total);
        }
        Ok(())
    }

    /// Makes the first `raw` bytes that are held the current line, which takes `size` bytes with its LF.
    fn pass(&mut self, raw: usize, size: usize)
        requires with_lf { raw ≤ size }
        requires some { 0 < size }
        requires held { size ≤ length self.old.held }
        requires line { raw ≤ self.old.limits.line }
        requires total { self.old.passed + size ≤ self.old.limits.total }
        ensures { self.new ≡ record self.old {
          held = drop size self.old.held;
          text = without_cr (take raw self.old.held);
          number = self.old.number + 1;
          passed = self.old.passed + size;
        } }
    {
        let start = self.held.start;
        let end = start + text_len(&self.buffer[start..start + raw]);
        self.text = Span { start, end };
        self.held.start = start + size;
        self.number += 1;
        self.passed += size as u64;
    }

    /// Reads once behind the bytes that are held, and at most one byte past the total. False is the end of input.
    fn refill<S: Source>(&mut self, source: &mut S) -> Result<bool, Failed>
        requires room { length self.old.held ≤ max_line }
        requires in_total { self.old.passed + length self.old.held ≤ self.old.limits.total }
        requires no_text { self.old.text ≡ [] }
        ensures stays { self.new
            ≡ record self.old { held = self.new.held; ended = self.new.ended } }
        ensures at_end { IsTrue self.old.ended → (source.new ≡ source.old) × (result ≡ Ok false) }
        ensures reads { Refills self.old self.new
            (S.state source.old) (S.state source.new) result }
    {
        let wanted = self.wanted();
        self.read_more(source, wanted)
    }

    /// Reads once behind the bytes that are held, and no byte past the total. False is the end of input.
    fn refill_within<S: Source>(&mut self, source: &mut S) -> Result<bool, Failed>
        requires room { length self.old.held ≤ max_line }
        requires in_total { self.old.passed + length self.old.held < self.old.limits.total }
        requires no_text { self.old.text ≡ [] }
        ensures stays { self.new
            ≡ record self.old { held = self.new.held; ended = self.new.ended } }
        ensures none_past { self.old.passed + length self.new.held ≤ self.old.limits.total }
        ensures at_end { IsTrue self.old.ended → (source.new ≡ source.old) × (result ≡ Ok false) }
        ensures reads { Refills self.old self.new
            (S.state source.old) (S.state source.new) result }
    {
        let wanted = self.left().min(MAX_HELD as u64) as usize;
        self.read_more(source, wanted)
    }

    /// Reads once behind the bytes that are held, and takes at most `most` bytes. Behind the end of input nothing is read.
    fn read_more<S: Source>(&mut self, source: &mut S, most: usize) -> Result<bool, Failed>
        requires room { length self.old.held ≤ max_line }
        requires some { 0 < most }
        requires one_past { self.old.passed + length self.old.held + most
            ≤ self.old.limits.total + 1 }
        requires no_text { self.old.text ≡ [] }
        ensures stays { self.new
            ≡ record self.old { held = self.new.held; ended = self.new.ended } }
        ensures at_most { length self.new.held ≤ length self.old.held + most }
        ensures at_end { IsTrue self.old.ended → (source.new ≡ source.old) × (result ≡ Ok false) }
        ensures reads { Refills self.old self.new
            (S.state source.old) (S.state source.new) result }
    {
        if self.ended {
            return Ok(false);
        }
        let answer = self.read_once(source, most);
        self.ended = is_end(&answer);
        answer
    }

    /// Reads once behind the bytes that are held, and takes at most `most` bytes.
    fn read_once<S: Source>(&mut self, source: &mut S, most: usize) -> Result<bool, Failed>
        requires room { length self.old.held ≤ max_line }
        requires some { 0 < most }
        requires one_past { self.old.passed + length self.old.held + most
            ≤ self.old.limits.total + 1 }
        requires no_text { self.old.text ≡ [] }
        ensures stays { self.new ≡ record self.old { held = self.new.held } }
        ensures at_most { length self.new.held ≤ length self.old.held + most }
        ensures reads { Fills self.old.held self.new.held
            (S.state source.old) (S.state source.new) result }
    {
        fill(source, self.buffer.as_mut_slice(), &mut self.held, most)
    }

    /// How many more bytes are of use: those up to one past the total, and no more than the buffer has.
    fn wanted(&self) -> usize
        requires in_total { self.now.passed + length self.now.held ≤ self.now.limits.total }
        ensures { result
            ≡ min (self.now.limits.total + 1 - (self.now.passed + length self.now.held)) max_held }
    {
        self.left().saturating_add(1).min(MAX_HELD as u64) as usize
    }

    /// How many bytes stand behind those that are held, up to the total.
    fn left(&self) -> u64
        requires in_total { self.now.passed + length self.now.held ≤ self.now.limits.total }
        ensures { result ≡ self.now.limits.total - (self.now.passed + length self.now.held) }
    {
        self.limits.total - self.passed - self.held().len() as u64
    }
}

/// Whether an answer of a read says that the input has ended.
fn is_end(answer: &Result<bool, Failed>) -> bool
    ensures { result ≡ is_end answer.now }
{
    match answer {
        Ok(some) => !*some,
        Err(Failed) => false,
    }
}

/// Where the first LF stands. It isn't among the first `searched` bytes.
#[inline(always)]
#[tactic(auto, using(crate::proofs::LineLemmas::lf_places))]
fn find_lf(bytes: &[u8], searched: usize) -> Option<usize>
    requires { searched ≤ first_lf bytes.now }
    ensures { MatchOption result (first_lf bytes.now ≡ length bytes.now)
        (λ at. (first_lf bytes.now ≡ at) × (at < length bytes.now)) }
{
    match memchr(b'\n', &bytes[searched..]) {
        Some(at) => Some(searched + at),
        None => None,
    }
}

/// The length of a line without one CR at its end.
fn text_len(line: &[u8]) -> usize
    ensures text { take result line.now ≡ without_cr line.now }
    ensures within { result ≤ length line.now }
{
    if line.last() == Some(&b'\r') {
        line.len() - 1
    } else {
        line.len()
    }
}

/// Reads once behind the bytes that are held, and takes at most `most` bytes.
fn fill<S: Source>(
    source: &mut S,
    buffer: &mut [u8],
    held: &mut Span,
    most: usize,
) -> Result<bool, Failed>
    requires place { LiesIn (length buffer.old) held.old }
    requires short { held.old.end - held.old.start < length buffer.old }
    requires some { 0 < most }
    ensures place { LiesIn (length buffer.new) held.new }
    ensures at_most { held.new.end - held.new.start ≤ held.old.end - held.old.start + most }
    ensures reads { Fills (part_of buffer.old held.old) (part_of buffer.new held.new)
        (S.state source.old) (S.state source.new) result }
{
    make_room(buffer, held);
    let taken = read_behind(source, buffer, held.end, most)?;
    held.end += taken;
    Ok(taken > 0)
}

/// Leaves room behind the bytes that are held. They are moved to the front only where they reach the buffer's end.
fn make_room(buffer: &mut [u8], held: &mut Span)
    requires place { LiesIn (length buffer.old) held.old }
    requires short { held.old.end - held.old.start < length buffer.old }
    ensures kept { part_of buffer.new held.new ≡ part_of buffer.old held.old }
    ensures size { held.new.end - held.new.start ≡ held.old.end - held.old.start }
    ensures place { LiesIn (length buffer.new) held.new }
    ensures room { held.new.end < length buffer.new }
{
    if held.start < held.end && held.end < buffer.len() {
        return;
    }
    buffer.copy_within(held.start..held.end, 0);
    *held = Span {
        start: 0,
        end: held.end - held.start,
    };
}

/// Reads once into what is free behind the first `filled` bytes, and takes at most `most` bytes.
fn read_behind<S: Source>(
    source: &mut S,
    buffer: &mut [u8],
    filled: usize,
    most: usize,
) -> Result<usize, Failed>
    requires room { filled < length buffer.old }
    requires some { 0 < most }
    ensures at_most { IfOk result (λ taken. taken ≤ most) }
    ensures front { take filled buffer.new ≡ take filled buffer.old }
    ensures reads { Reads
        (S.state source.old) (S.state source.new) result (drop filled buffer.new) }
{
    let free = (buffer.len() - filled).min(most);
    source.read(&mut buffer[filled..filled + free])
}
