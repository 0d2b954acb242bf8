ghost use Rattle.std.specs.Prelude.{◌≡◌, ◌<◌, ◌+◌, None, Some, IfOk, IfSome, OnOk, MatchBool};
ghost use Rattle.route_io.specs.Sources.{ReadsFrom};
ghost use Rattle.line_text.specs.Reading.{InLimits, rest_of};
ghost use Rattle.cert_rules.specs.Certificates.{IsCertificate};
ghost use Rattle.front_cert.specs.Listing.{IsListingOf};
ghost use Rattle.front_cert.specs.Reads.{BeginTells, IsDraft, NextTells, ReadsText, cert_failed};
ghost use Rattle.front_cert.specs.Text.{cert_limits};

use crate::draft::Draft;
use crate::{CertFault, Listing};
use arc_graph::Network;
use line_text::{LineLimits, Lines};
use route_io::Source;
use std::alloc::Global;

/// The most bytes of a line, and of the text.
const LIMITS: LineLimits = LineLimits {
    line: 1024,
    total: 1 << 29,
};

/// Reads the text of a certificate to its end.
pub(crate) fn read_listing<S: Source>(
    alloc: Global,
    source: &mut S,
    network: &Network<'_>,
) -> Result<Listing, CertFault>
    ensures reads { IfSome (S.state source.old).left (λ bytes. ReadsText network.now bytes result) }
    ensures of { IfOk result (IsListingOf network.now) }
    ensures certificate { IfOk result (λ listing. IsCertificate network.now listing.cert) }
    ensures source { ReadsFrom (S.state source.old) (S.state source.new) (cert_failed result) }
{
    let mut lines = Lines::new(alloc, LIMITS)?;
    let mut draft = read_heading(alloc, source, &mut lines, network)?;
    'labels: while next_line(source, &mut lines, network)? {
        if !draft.take(lines.text(), network)? {
            return Err(here(&lines));
        }
    }
    if draft.labels.len() < draft.due as usize {
        return Err(behind(&lines));
    }
    Ok(draft.into_listing(alloc, network))
}

/// Reads the first line.
fn read_heading<S: Source>(
    alloc: Global,
    source: &mut S,
    lines: &mut Lines,
    network: &Network<'_>,
) -> Result<Draft, CertFault>
    requires limits { lines.old.limits ≡ cert_limits }
    requires goes_on { lines.old.fault ≡ None }
    ensures limits { lines.new.limits ≡ lines.old.limits }
    ensures goes_on { OnOk result (lines.new.fault ≡ None) }
    ensures tells { IfSome (rest_of lines.old (S.state source.old)) (λ rest. BeginTells network.now
        lines.old lines.new rest (rest_of lines.new (S.state source.new)) result) }
    ensures draft { IfOk result (IsDraft network.now) }
    ensures source { ReadsFrom (S.state source.old) (S.state source.new) (cert_failed result) }
{
    if !next_line(source, lines, network)? {
        return Err(behind(lines));
    }
    match Draft::begin(alloc, lines.text(), network) {
        Some(draft) => Ok(draft),
        None => Err(here(lines)),
    }
}

/// Makes the next line current, and answers true, or false at the end of the text.
fn next_line<S: Source>(
    source: &mut S,
    lines: &mut Lines,
    network: &Network<'_>,
) -> Result<bool, CertFault>
    requires limits { lines.old.limits ≡ cert_limits }
    requires goes_on { lines.old.fault ≡ None }
    ensures limits { lines.new.limits ≡ lines.old.limits }
    ensures goes_on { OnOk result (lines.new.fault ≡ None) }
    ensures passed { IfOk result (λ more. MatchBool more
        (lines.old.passed < lines.new.passed) (lines.new.number ≡ lines.old.number)) }
    ensures in_limits { InLimits lines.new }
    ensures tells { IfSome (rest_of lines.old (S.state source.old)) (λ rest. NextTells network.now
        lines.old lines.new rest (rest_of lines.new (S.state source.new)) result) }
    ensures source { ReadsFrom (S.state source.old) (S.state source.new) (cert_failed result) }
{
    match lines.next_line(source) {
        Ok(more) => Ok(more),
        Err(fault) => Err(CertFault::at_line(fault, lines.number() + 1)),
    }
}

/// The current line is faulty.
fn here(lines: &Lines) -> CertFault
    ensures { result ≡ CertFault.Line lines.now.number }
{
    CertFault::Line {
        line: lines.number(),
    }
}

/// The place behind the last line is faulty.
fn behind(lines: &Lines) -> CertFault
    requires { lines.now.limits ≡ cert_limits }
    ensures { result ≡ CertFault.Line (lines.now.number + 1) }
{
    CertFault::Line {
        line: lines.number() + 1,
    }
}
