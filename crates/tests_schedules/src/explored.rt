//! The graphs of the scenes are walked.

use crate::plain::explorer::Graph;
use crate::plain::scenes::{HOSTILE, PAIRS, TRIOS, Walk};
use crate::plain::scripts::told;
use crate::plain::worlds::world_of;
use std::alloc::Global;
use std::process::Abort;
use std::test::Fail;

/// Walks the graphs, in which every state keeps to the rules and every step comes out as it has to, and counts them.
fn walk_all(rt: &impl Abort, alloc: Global, walks: &[Walk]) -> Result<(), Fail> {
    for walk in walks {
        let world = world_of(alloc, &walk.scene)?;
        let mut graph = Graph::new(alloc);
        let came = graph.walk(alloc, &world, walk.most);
        let text = told(alloc, &world, graph.trail.as_slice(), &came)?;
        assert!(rt; came.is_ok(), "{}: {text}", walk.name);
        assert_eq!(rt; graph.counts, walk.counts, "{}", walk.name);
    }
    Ok(())
}

#[test]
fn two_honest_players_keep_to_the_rules(rt: HostRuntime) -> Result<(), Fail> {
    walk_all(&rt, rt.alloc(), &PAIRS)
}

#[test]
fn three_honest_players_keep_to_the_rules(rt: HostRuntime) -> Result<(), Fail> {
    walk_all(&rt, rt.alloc(), &TRIOS)
}

#[test]
fn honest_players_keep_to_the_rules_beside_a_hostile_one(rt: HostRuntime) -> Result<(), Fail> {
    walk_all(&rt, rt.alloc(), &HOSTILE)
}
