ghost use Rattle.std.specs.Prelude.{◌≡◌, ℕ, ◌<◌, ◌≤◌, ◌^◌, List, All, Contains};
ghost use Rattle.road_network.specs.Labels.{Label};
ghost use Rattle.road_network.specs.Limits.{max_nodes};
ghost use Rattle.road_network.specs.Network.{Network, IsNetwork, AreSmall};
ghost use Rattle.cert_rules.specs.Certificates.{Certificate, IsCertificate};
ghost use Rattle.cert_rules.specs.Meaning.{ListsRelevant, ShowsAnswer};
ghost use Rattle.cert_rules.specs.Rules.{HasNoFailure, IsFirstFailure};
ghost use Rattle.cert_rules.specs.declared.rule.Rule.{Rule};

/// A certificate at which no rule fails shows the answer, whoever wrote it: no search is spoken of.
pub fn certificates_show_answers()
    ensures { (net : Network) (cert : Certificate) → IsNetwork net → IsCertificate net cert
        → HasNoFailure net cert → ShowsAnswer net cert }
{}

/// A certificate has at most one first failure, and none where no rule fails.
pub fn first_failures_are_one()
    ensures one { (net : Network) (cert : Certificate) (rule other : Rule) (i j : ℕ)
        → IsFirstFailure net cert rule i → IsFirstFailure net cert other j
        → (rule ≡ other) × (i ≡ j) }
    ensures none { (net : Network) (cert : Certificate) (rule : Rule) (i : ℕ)
        → HasNoFailure net cert → ¬ IsFirstFailure net cert rule i }
{}

/// No rule fails where the relevant pairs are listed with their least arcs; and their costs are small enough to be listed.
pub fn relevant_pairs_are_certificates()
    ensures complete { (net : Network) (cert : Certificate) → IsNetwork net
        → IsCertificate net cert → ListsRelevant net cert → HasNoFailure net cert }
    ensures small { (net : Network) (cert : Certificate) (l : Label) → IsNetwork net
        → AreSmall net.states → net.nodes ≤ max_nodes → ListsRelevant net cert
        → Contains cert.labels l → All (λ x. x < 2 ^ 55) l.cost }
{}
