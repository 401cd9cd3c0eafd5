// The groups of records.
ghost use Rattle.std.specs.Prelude.{◌≡◌, ◌<◌, ◌≤◌, ◌^◌, IfSome, length};
ghost use Rattle.dedup_groups.specs.Groups.{depth_of, leader_of, via_of};

use std::marker::Model;

/// The groups of the records of a file, as a forest, which contracts see as three lists of one length: the leader of each position,
/// the position that it was reached from, and how many links that is from the leader.
#[derive(Drop)]
pub struct Groups {
    pub(crate) leaders: Vec<u32>,
    pub(crate) vias: Vec<Option<u32>>,
    pub(crate) depths: Vec<u32>,
}

impl Model for Groups {
    ghost use Rattle.dedup_groups.specs.Groups.{GroupLists, group_lists};
    ghost use Rattle.dedup_groups.specs.Forest.{KeepsRows};

    ghost Value = { GroupLists };

    ghost view = { λ g. group_lists g.leaders.items g.vias.items g.depths.items };

    ghost invariant = { λ g. KeepsRows (group_lists g.leaders.items g.vias.items g.depths.items) };
}

impl Groups {
    /// The number of records.
    pub fn rows(&self) -> u32
        ensures { result ≡ length self.now.leaders }
    {
        self.leaders.len() as u32
    }

    // The leaders of all positions.
    pub(crate) fn leaders(&self) -> &[u32]
        ensures value { result.now ≡ self.now.leaders }
        ensures few { length result.now < 2 ^ 32 }
    {
        &self.leaders
    }

    /// The leader of a position: the least position of its group.
    pub fn leader(&self, at: u32) -> u32
        requires { at < length self.now.leaders }
        ensures value { result ≡ leader_of self.now at }
        ensures low { result ≤ at }
    {
        self.leaders[at as usize]
    }

    /// The position that a position was reached from by a link. `None` for a leader.
    pub fn via(&self, at: u32) -> Option<u32>
        requires { at < length self.now.leaders }
        ensures value { result ≡ via_of self.now at }
        ensures within { IfSome result (λ from. from < length self.now.leaders) }
    {
        self.vias[at as usize]
    }

    /// How many links a position was reached by from its leader.
    pub fn depth(&self, at: u32) -> u32
        requires { at < length self.now.leaders }
        ensures { result ≡ depth_of self.now at }
    {
        self.depths[at as usize]
    }
}
