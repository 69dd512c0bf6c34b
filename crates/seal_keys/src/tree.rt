//! The tree of nodes over the leaves of all places.

ghost use Rattle.std.specs.Prelude.{◌≡◌, ◌≤◌, ◌<◌, ℕ, ◌+◌, ◌*◌, ◌^◌, ◌++◌, List, [], length, slice_index_or, IfOk};
ghost use Rattle.sha2.specs.Sha256.{sha256};
ghost use Rattle.seal_keys.specs.NodeTables.{HasNodes};
ghost use Rattle.seal_keys.specs.Keys as K;

use crate::values::{leaf_of, pair_of, sha256_of};
use grid_world::Session;
use std::alloc::{AllocError, Global};

/// The greatest height of a tree: one over the places of the most turns.
pub(crate) const MOST_HEIGHT: u32 = 14;

/// How many leaves a tree of this height has: two to this power.
pub(crate) fn power(height: u32) -> usize
    requires { height ≤ MOST_HEIGHT }
    ensures { result ≡ 2 ^ height }
{
    1 << height
}

/// The least height, from 0 on, of a tree with so many leaves at least.
fn height_of(count: u32) -> u32
    ensures value { result ≡ K.height_from MOST_HEIGHT 0 count }
    ensures within { result ≤ MOST_HEIGHT }
{
    for height in 0..MOST_HEIGHT {
        if count as usize <= power(height) {
            return height;
        }
    }
    MOST_HEIGHT
}

/// The least height of a tree with a leaf for each place of the session.
#[tactic(auto, unfolding(crate::specs::Keys::tree_height))]
pub(crate) fn tree_height(session: &Session) -> u32
    ensures value { result ≡ K.tree_height session.now }
    ensures within { result ≤ MOST_HEIGHT }
    ensures enough { K.places session.now ≤ 2 ^ result }
{
    height_of(2 * session.turns())
}

/// Writes the leaves, where there are so many places, in their row: the lower half of the table.
fn put_leaves(nodes: &mut [[u8; 32]], seed: &[u8; 32], count: u32, height: u32)
    requires height { height ≤ MOST_HEIGHT }
    requires room { length nodes.old ≡ 2 * 2 ^ height }
    ensures { HasNodes (K.leaf_of seed.now count) height 0 nodes.new }
{
    let width = power(height);
    for index in 0..width {
        nodes[width + index] = leaf_of(seed, count, index as u32);
    }
}

/// Writes a row of so many nodes, by the row of their children.
fn put_row(nodes: &mut [[u8; 32]], width: usize)
    requires { 4 * width ≤ length nodes.old }
    ensures row { (j : ℕ) → j < width → slice_index_or nodes.new (width + j) [] ≡ sha256 (slice_index_or nodes.old (2 * width + 2 * j) [] ++ slice_index_or nodes.old (2 * width + 2 * j + 1) []) }
    ensures kept { (p : ℕ) → 2 * width ≤ p → slice_index_or nodes.new p [] ≡ slice_index_or nodes.old p [] }
{
    for index in 0..width {
        let left = nodes[2 * width + 2 * index];
        let right = nodes[2 * width + 2 * index + 1];
        nodes[width + index] = sha256_of(&pair_of(&left, &right));
    }
}

/// Writes the nodes of all heights above 0, by the leaves.
fn put_nodes(nodes: &mut [[u8; 32]], height: u32)
    requires height { height ≤ MOST_HEIGHT }
    requires room { length nodes.old ≡ 2 * 2 ^ height }
    ensures { (leaves : ℕ → List ℕ) → HasNodes leaves height 0 nodes.old → HasNodes leaves height height nodes.new }
{
    for done in 0..height {
        put_row(nodes, power(height - done - 1));
    }
}

/// Writes the nodes of the tree over the leaves, where there are so many places.
fn put_tree(nodes: &mut [[u8; 32]], seed: &[u8; 32], count: u32, height: u32)
    requires height { height ≤ MOST_HEIGHT }
    requires room { length nodes.old ≡ 2 * 2 ^ height }
    ensures { HasNodes (K.leaf_of seed.now count) height height nodes.new }
{
    put_leaves(nodes, seed, count, height);
    put_nodes(nodes, height);
}

/// The tree of the seed's keys for so many places. An error comes only where memory runs out.
pub(crate) fn tree_of(
    alloc: Global,
    seed: &[u8; 32],
    count: u32,
    height: u32,
) -> Result<Vec<[u8; 32]>, AllocError>
    requires { height ≤ MOST_HEIGHT }
    ensures nodes { IfOk result (λ nodes. HasNodes (K.leaf_of seed.now count) height height nodes.items) }
    ensures count { IfOk result (λ nodes. length nodes.items ≡ 2 * 2 ^ height) }
{
    let mut nodes = vec![in alloc; [0u8; 32]; 2 * power(height)]?;
    put_tree(&mut nodes, seed, count, height);
    Ok(nodes)
}
