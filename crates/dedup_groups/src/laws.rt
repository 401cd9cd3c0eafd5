// The laws of leaders, each the contract of a function that does nothing.
ghost use Rattle.dedup_groups.specs.Groups.{ForestHasLeaders, LeadersTellGroups};

/// The leaders of a forest are those of the groups, whatever the forest: each is the least position that a chain of links joins
/// with its position.
pub fn forest_leaders()
    ensures { ForestHasLeaders }
{}

/// Two positions have one leader exactly where they are in one group.
pub fn leaders_tell_groups()
    ensures { LeadersTellGroups }
{}
