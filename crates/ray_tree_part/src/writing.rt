ghost use Rattle.std.specs.Prelude.{◌≡◌, ◌++◌, ◌<◌, ◌^◌, All, OnOk, length};
ghost use Rattle.std.specs.List.{flat_map};
ghost use Rattle.byteorder.specs.Endian.{little_bytes};
ghost use Rattle.ray_tree_part.specs.TreeParts.{node_bytes, part_of, tree_bytes, IsReadAgain, IsWritable};

use ray_primitives::KeptBox;
use ray_stated::{NoMemory, StoredNode, store};
use ray_tree::Tree;
use std::alloc::Global;

/// Appends the tree part of a tree, which is read back as what is stored of the tree. (Own: the
/// layout.)
///
/// # Errors
///
/// For want of memory alone.
#[tactic(auto, unfolding(crate::specs::TreeParts::tree_bytes))]
pub fn append_tree(alloc: Global, bytes: &mut Vec<u8>, tree: &Tree) -> Result<(), NoMemory>
    ensures written { OnOk result (bytes.new.items ≡ bytes.old.items ++ tree_bytes tree.now) }
    ensures again { OnOk result (IsReadAgain tree.now) }
{
    tree.shape();
    tree.limits();
    let nodes = store(alloc, tree)?;
    append_part(bytes, &nodes, tree.order())
}

// Appends nodes and an order.
fn append_part(bytes: &mut Vec<u8>, nodes: &[StoredNode], order: &[u32]) -> Result<(), NoMemory>
    requires nodes { length nodes.now < 2 ^ 32 }
    requires order { length order.now < 2 ^ 32 }
    ensures written { OnOk result (bytes.new.items
        ≡ bytes.old.items ++ part_of nodes.now order.now) }
    ensures all { OnOk result (All IsWritable nodes.now) }
    ensures words { OnOk result (All (λ w. w < 2 ^ 32) order.now) }
{
    append_word(bytes, nodes.len() as u32)?;
    append_word(bytes, order.len() as u32)?;
    append_nodes(bytes, nodes)?;
    append_words(bytes, order)?;
    Ok(())
}

// Appends the 32 bytes of each node.
fn append_nodes(bytes: &mut Vec<u8>, nodes: &[StoredNode]) -> Result<(), NoMemory>
    ensures written { OnOk result (bytes.new.items
        ≡ bytes.old.items ++ flat_map node_bytes nodes.now) }
    ensures all { OnOk result (All IsWritable nodes.now) }
{
    for node in nodes {
        append_node(bytes, *node)?;
    }
    Ok(())
}

// Appends the 32 bytes of a node.
#[tactic(auto, unfolding(crate::specs::TreeParts::node_bytes))]
fn append_node(bytes: &mut Vec<u8>, node: StoredNode) -> Result<(), NoMemory>
    ensures written { OnOk result (bytes.new.items ≡ bytes.old.items ++ node_bytes node) }
    ensures fits { IsWritable node }
{
    let (lo, hi) = (node.bounds.lo(), node.bounds.hi());
    bytes.extend_from_slice(&KeptBox::active(lo, hi).bytes())?;
    append_word(bytes, node.count)?;
    append_word(bytes, node.link)
}

// Appends words of 32 bits.
fn append_words(bytes: &mut Vec<u8>, words: &[u32]) -> Result<(), NoMemory>
    ensures written { OnOk result (bytes.new.items
        ≡ bytes.old.items ++ flat_map (little_bytes 4) words.now) }
    ensures all { OnOk result (All (λ w. w < 2 ^ 32) words.now) }
{
    for word in words {
        append_word(bytes, *word)?;
    }
    Ok(())
}

// Appends a word of 32 bits.
fn append_word(bytes: &mut Vec<u8>, word: u32) -> Result<(), NoMemory>
    ensures written { OnOk result (bytes.new.items ≡ bytes.old.items ++ little_bytes 4 word) }
    ensures fits { word < 2 ^ 32 }
{
    bytes.extend_from_slice(&word.to_le_bytes())
}
