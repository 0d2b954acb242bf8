//! The command `verify`.
ghost use Rattle.std.specs.Prelude.{◌≡◌, All, IfOk};
ghost use Rattle.cost_vector.specs.Costs.{no_limit};
ghost use Rattle.route_io.specs.Sources.{ReadsFiles};
ghost use Rattle.walk_readback.specs.Found.{IsWellFound};
ghost use Rattle.cert_rules.specs.Certificates.{IsCertificate};
ghost use Rattle.front_cert.specs.Found.{found_of};
ghost use Rattle.front_cert.specs.Listing.{IsListingOf};
ghost use Rattle.command_words.specs.Words.{names_of_still};
ghost use Rattle.command_words.specs.declared.commands.StillCommand.TheVariants.{Verify};
ghost use Rattle.still_commands.specs.Outcome.{failed_file};
ghost use Rattle.still_commands.specs.Output.{RunsCommand, StillEnds};
ghost use Rattle.still_commands.specs.ReadResults.{CertRead};
ghost use Rattle.still_commands.specs.Stops.{Replies, run_outcome};
ghost use Rattle.still_commands.specs.Verify.{CertReplies, query_of};

use crate::network::read_network;
use crate::reply::EPOCH;
use crate::stop::Stop;
use answer_writer::put_answer;
use arc_graph::Network;
use command_words::VerifyWords;
use front_cert::{CertFault, Listing, check_cert};
use road_network::{AnswerKind, Query};
use route_io::{Folder, Sink};
use std::alloc::Global;
use walk_readback::{FoundCosts, Room};

/// Checks a certificate against the named files, without a search, and sends the answer that it shows.
pub(crate) fn run<'a, F: Folder, K: Sink>(
    alloc: Global,
    asked: &VerifyWords<'a>,
    folder: &mut F,
    out: &mut K,
) -> Result<(), Stop<'a>>
    requires { All F.admits (names_of_still (Verify asked.now)) }
    ensures { RunsCommand (StillEnds (F.state folder.old).files (Verify asked.now))
        (F.state folder.old) (F.state folder.new) (K.state out.old) (K.state out.new)
        (run_outcome result) }
{
    let (graph, weights) = read_network(alloc, folder, &asked.files)?;
    let network = Network::new(&graph, &weights);
    let listing = read_cert(alloc, folder, asked.cert.text(), &network)?;
    reply(alloc, &network, &listing, out)
}

/// Reads the certificate of this name, and checks it.
fn read_cert<'a, F: Folder>(
    alloc: Global,
    folder: &mut F,
    name: &'a str,
    network: &Network<'_>,
) -> Result<Listing, Stop<'a>>
    requires { F.admits name.now }
    ensures of { IfOk result (IsListingOf network.now) }
    ensures certificate { IfOk result (λ listing. IsCertificate network.now listing.cert) }
    ensures well_found { IfOk result (λ listing.
        IsWellFound network.now (no_limit network.now.criteria) (found_of listing)) }
    ensures read { CertRead (F.state folder.old).files network.now name.now result }
    ensures folder { ReadsFiles (F.state folder.old) (F.state folder.new)
        (failed_file (run_outcome result)) }
{
    let Ok(()) = folder.select(name) else {
        return Err(Stop::Folder { name });
    };
    match check_cert(alloc, folder, network) {
        Ok(listing) => Ok(listing),
        Err(CertFault::Line { line }) => Err(Stop::Cert { name, line }),
        Err(CertFault::Rule { rule, label }) => Err(Stop::Rule { name, rule, label }),
        Err(CertFault::Read) => Err(Stop::Folder { name }),
        Err(CertFault::OutOfMemory(want)) => Err(Stop::OutOfMemory(want)),
    }
}

/// Sends the answer that a certificate shows. Room for its walks is taken before the first byte.
fn reply<'a, K: Sink>(
    alloc: Global,
    network: &Network<'_>,
    listing: &Listing,
    out: &mut K,
) -> Result<(), Stop<'a>>
    requires of { IsListingOf network.now listing.now }
    requires well_found { IsWellFound network.now (no_limit network.now.criteria)
        (found_of listing.now) }
    ensures { Replies (CertReplies network.now listing.now.cert)
        (K.state out.old) (K.state out.new) (run_outcome result) }
{
    prove!(network.nodes() >= 1);
    let query = query_of(listing);
    let mut room = Room::with(alloc, listing.longest())?;
    put_answer(
        out,
        EPOCH,
        AnswerKind::Walks,
        &query,
        network,
        listing,
        &mut room,
    )?;
    Ok(())
}

/// The query whose answer a certificate shows.
fn query_of(listing: &Listing) -> Query
    ensures { result ≡ query_of listing.now.cert }
{
    Query {
        from: listing.start().0,
        to: listing.target().0,
        limit: None,
        budget: 0,
    }
}
