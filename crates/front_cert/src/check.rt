ghost use Rattle.std.specs.Prelude.{IfOk, IfSome};
ghost use Rattle.route_io.specs.Sources.{ReadsFrom};
ghost use Rattle.cert_rules.specs.Certificates.{IsCertificate};
ghost use Rattle.cert_rules.specs.Meaning.{ShowsAnswer};
ghost use Rattle.cert_rules.specs.Rules.{HasNoFailure};
ghost use Rattle.cost_vector.specs.Costs.{no_limit};
ghost use Rattle.walk_readback.specs.Found.{IsWellFound};
ghost use Rattle.front_cert.specs.Found.{found_of};
ghost use Rattle.front_cert.specs.Listing.{IsListingOf};
ghost use Rattle.front_cert.specs.Reads.{ChecksText, cert_failed};

use crate::reader::read_listing;
use crate::{CertFault, Listing};
use arc_graph::Network;
use route_io::Source;
use std::alloc::Global;

/// Reads a certificate and checks it against a network, without a search.
pub fn check_cert<S: Source>(
    alloc: Global,
    source: &mut S,
    network: &Network<'_>,
) -> Result<Listing, CertFault>
    // Where the source tells its bytes, the first faulty line is told, else the first label at which a rule fails with the
    // least such rule, else the certificate is answered; but for the source's failures and want of memory.
    ensures checks { IfSome (S.state source.old).left
        (λ bytes. ChecksText network.now bytes result) }

    // Over every source what is answered is a certificate of the network, and shows the answer, as what a search has found does.
    ensures of { IfOk result (IsListingOf network.now) }
    ensures certificate { IfOk result (λ listing. IsCertificate network.now listing.cert) }
    ensures no_failure { IfOk result (λ listing. HasNoFailure network.now listing.cert) }
    ensures shows { IfOk result (λ listing. ShowsAnswer network.now listing.cert) }
    ensures well_found { IfOk result (λ listing.
        IsWellFound network.now (no_limit network.now.criteria) (found_of listing)) }

    // The source's failures alone make a failed read.
    ensures source { ReadsFrom (S.state source.old) (S.state source.new) (cert_failed result) }
{
    prove!(network.nodes() >= 1);
    let mut listing = read_listing(alloc, source, network)?;
    listing.lay_offsets(alloc)?;
    listing.lay_corners(alloc)?;
    let beaten = listing.seek_beaten(alloc)?;
    match listing.first_failure(alloc, network, beaten)? {
        None => Ok(listing),
        Some((rule, label)) => Err(CertFault::Rule { rule, label }),
    }
}
