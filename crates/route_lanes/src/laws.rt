//! What holds of a follower's run by the feeds of one leader, as contracts of functions that do nothing.
ghost use Rattle.route_lanes.specs.Followed.{RunsCatchUp, RunsKeepToTheirLeader};

/// However its links broke and whatever they repeated, a follower that ran beside sessions has a part of its leader's history
/// from the front, and its sessions come to no other epochs.
pub fn runs_keep_to_their_leader()
    ensures { RunsKeepToTheirLeader }
{}

/// A whole feed of the leader's first sets is reported as taken whole, with the number of its last epoch or a later one; but for
/// the source's failures, want of memory and a length above the limit.
pub fn runs_catch_up()
    ensures { RunsCatchUp }
{}
