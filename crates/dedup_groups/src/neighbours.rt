// The neighbours of each record.
ghost use Rattle.std.specs.Prelude.{◌≤◌, IfOk, length};
ghost use Rattle.dedup_groups.specs.Forest.{AreLinked};
ghost use Rattle.link_limits.specs.declared.TheConstants.{MOST_PAIRS};

use block_passes::Groups as Rows;
use link_base::{NoMemory, PairAt};
use std::alloc::Global;

// The records that each record is linked with.
pub(crate) fn neighbours(alloc: Global, rows: u32, links: &[PairAt]) -> Result<Rows, NoMemory>
    requires { length links.now ≤ MOST_PAIRS }
    ensures { IfOk result (AreLinked rows links.now) }
{
    let mut tails = Vec::with_capacity(alloc, 2 * links.len())?;
    let mut heads = Vec::with_capacity(alloc, 2 * links.len())?;
    for link in links {
        tails.push(link.a)?;
        tails.push(link.b)?;
        heads.push(link.b)?;
        heads.push(link.a)?;
    }
    let arcs = Rows::new(alloc, &tails, rows)?;
    Ok(arcs.read(&heads))
}
