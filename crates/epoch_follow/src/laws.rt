//! What holds of a follower of one leader, as contracts of functions that do nothing.
ghost use Rattle.epoch_follow.specs.Followers.{FollowersCatchUp, FollowersKeepToTheirLeader};

/// Over links that may break anywhere and repeat what came before, a follower's history stays a part of its leader's from the
/// front.
pub fn followers_keep_to_their_leader()
    ensures { FollowersKeepToTheirLeader }
{}

/// A whole feed of the leader's first sets is taken whole, and then the follower has these sets; but for the source's failures,
/// want of memory and a length above the limit.
pub fn followers_catch_up()
    ensures { FollowersCatchUp }
{}
