//! Groups joined to clusters, each with the one that it has most nets in common with.

use crate::levels::Level;
use crate::numberings::{Numbering, numbering_of};
use crate::numbers::{at, count, put, raise, row};
use std::alloc::Global;
use std::cmp::Reverse;
use tmr_base::OutOfMemory;

/// Nets that touch more groups say nothing of which belong together.
const MOST_RATED: usize = 10;

/// Clusters as they grow. The group that others join leads them: `leaders` has the leader of each group, `sizes` how many nodes each
/// leader's cluster holds. `rates` tells how closely one group is tied to each cluster, and `met` the leaders that have a rate. `weighed` is how
/// many nodes the largest cluster would hold that was thought of.
#[derive(Drop)]
struct Clusters {
    leaders: Vec<u32>,
    sizes: Vec<u32>,
    rates: Vec<u32>,
    met: Vec<u32>,
    weighed: u32,
}

/// The groups of a level joined, and how many nodes the largest cluster holds that was weighed.
#[derive(Drop)]
pub struct Joined {
    pub of: Numbering,
    pub weighed: u32,
}

/// Raises the rates of the clusters that a net of group v touches, by a whole number: nets of few groups tie most.
fn rate_net(c: &mut Clusters, net: &[u32], v: u32) -> Result<(), OutOfMemory> {
    if net.len() < 2 || net.len() > MOST_RATED {
        return Ok(());
    }
    let rate = 2520 / (net.len() as u32 - 1);
    for g in net {
        let leader = at(c.leaders.as_slice(), *g);
        if leader != v {
            if at(c.rates.as_slice(), leader) == 0 {
                c.met.push(leader)?;
            }
            raise(&mut c.rates, leader, rate);
        }
    }
    Ok(())
}

/// Rates the clusters that nets of group v touch.
fn rate_clusters(level: &Level, c: &mut Clusters, v: u32) -> Result<(), OutOfMemory> {
    c.met.clear();
    for e in row(&level.nets_of, v) {
        rate_net(c, row(&level.nets, *e), v)?;
    }
    Ok(())
}

/// The cluster of the highest rate with which group v of so many nodes holds at most `most`, of several the smallest, and of these the
/// one with the lowest leader; v itself if there is none.
fn best_cluster(c: &mut Clusters, v: u32, size: u32, most: u32) -> u32 {
    let mut best = (0, Reverse(0), Reverse(v));
    let mut weighed = c.weighed;
    for leader in &c.met {
        let joined = at(c.sizes.as_slice(), *leader);
        let choice = (
            at(c.rates.as_slice(), *leader),
            Reverse(joined),
            Reverse(*leader),
        );
        let together = joined.saturating_add(size);
        weighed = weighed.max(together);
        if together <= most && choice > best {
            best = choice;
        }
    }
    c.weighed = weighed;
    let (_, _, Reverse(leader)) = best;
    leader
}

/// No cluster has a rate from now on.
fn clear_rates(c: &mut Clusters) {
    for leader in &c.met {
        put(&mut c.rates, *leader, 0);
    }
}

/// Joins group v, which leads none but itself, to the best cluster.
fn join_group(level: &Level, c: &mut Clusters, v: u32, most: u32) -> Result<(), OutOfMemory> {
    let size = at(level.sizes.as_slice(), v);
    if at(c.leaders.as_slice(), v) != v || at(c.sizes.as_slice(), v) != size {
        return Ok(());
    }
    rate_clusters(level, c, v)?;
    let best = best_cluster(c, v, size, most);
    clear_rates(c);
    if best != v {
        put(&mut c.leaders, v, best);
        raise(&mut c.sizes, best, size);
    }
    Ok(())
}

/// The groups of a level joined to clusters of at most `most` nodes.
pub fn join_groups(alloc: Global, level: &Level, most: u32) -> Result<Joined, OutOfMemory> {
    let groups = count(level.sizes.as_slice());
    let leaders = (0..groups).collect(alloc)?;
    let sizes = level.sizes.clone()?;
    let rates = vec![in alloc; 0u32; groups as usize]?;
    let mut clusters = Clusters {
        leaders,
        sizes,
        rates,
        met: Vec::new(alloc),
        weighed: 0,
    };
    for v in 0..groups {
        join_group(level, &mut clusters, v, most)?;
    }
    let of = numbering_of(alloc, clusters.leaders.as_slice())?;
    Ok(Joined {
        of,
        weighed: clusters.weighed,
    })
}
