//! What holds of every plan, as the contracts of functions that do nothing.
#![tactic(auto)]

ghost use Rattle.gen_laws.specs.Laws.{NetworksAreSmall, PairFilesAreRead, PairsHaveNodes};
ghost use Rattle.gen_laws.specs.Laws.{WeightFilesAgree, WeightFilesAreRead};

/// Each weight file of a plan is a weight file, of the grid's nodes and arcs.
pub fn weight_files_are_read()
    ensures { WeightFilesAreRead }
{}

/// The weight files of a plan list the same arcs, none of which has weight 0.
pub fn weight_files_agree()
    ensures { WeightFilesAgree }
{}

/// The file of pairs of a plan is a file of pairs, between nodes of the grid.
pub fn pair_files_are_read()
    ensures { PairFilesAreRead }
{}

/// The network of a plan has few nodes, and its walks cost little.
pub fn networks_are_small()
    ensures { NetworksAreSmall }
{}

/// The pairs of a plan are of the grid's nodes.
pub fn pairs_have_nodes()
    ensures { PairsHaveNodes }
{}
