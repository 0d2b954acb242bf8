//! What holds of followers that take feeds from files, as contracts of functions that do nothing.
ghost use Rattle.route_top.specs.Followed.{FollowKeepsToItsLeader, WrittenFeedsCome, WrittenFeedsLead};

/// Where the feeds of `follow` are those of one leader, each cut anywhere, its sessions are answered over a part of the leader's
/// history from the front.
pub fn follow_keeps_to_its_leader()
    ensures { FollowKeepsToItsLeader }
{}

/// Whatever comes over a link of the feed that `follow --write` sends is a feed of what its script has published.
pub fn written_feeds_come_from_their_script()
    ensures { WrittenFeedsCome }
{}

/// The feed that one run of `follow --write` has sent leads every run of `follow --feeds` over the same weight files: where its
/// feeds are parts of that text from the front, its sessions are answered over a part of the history that the script has published,
/// and over all of it where one of them is the whole text.
pub fn written_feeds_lead_their_followers()
    ensures { WrittenFeedsLead }
{}
