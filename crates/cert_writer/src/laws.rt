ghost use Rattle.std.specs.Prelude.{◌≡◌, Result, Ok};
ghost use Rattle.arc_graph.specs.Graph.{IsRoadNetwork};
ghost use Rattle.road_network.specs.Network.{Network};
ghost use Rattle.cert_rules.specs.Certificates.{Certificate, IsCertificate};
ghost use Rattle.cert_rules.specs.Meaning.{ListsRelevant};
ghost use Rattle.front_cert.specs.Listing.{Listing};
ghost use Rattle.front_cert.specs.Reads.{ChecksText};
ghost use Rattle.front_cert.specs.Text.{read_text};
ghost use Rattle.front_cert.specs.declared.fault.CertFault.{CertFault};
ghost use Rattle.cert_writer.specs.Text.{Accepts, cert_text};

/// The text of a certificate reads back as what it is of. Where that lists the relevant pairs of a query with their least arcs,
/// a check over the same network accepts it; and there is just one such certificate.
pub fn written_certificates_are_accepted()
    ensures read { (net : Network) (cert : Certificate) → IsRoadNetwork net → IsCertificate net cert
        → read_text net (cert_text net.criteria cert) ≡ Ok cert }
    ensures accepted { (net : Network) (cert : Certificate) (result : Result Listing CertFault)
        → IsRoadNetwork net → IsCertificate net cert → ListsRelevant net cert
        → ChecksText net (cert_text net.criteria cert) result → Accepts cert result }
    ensures one { (net : Network) (cert other : Certificate) → IsCertificate net cert
        → IsCertificate net other → cert.start ≡ other.start → cert.target ≡ other.target
        → ListsRelevant net cert → ListsRelevant net other → cert ≡ other }
{}
