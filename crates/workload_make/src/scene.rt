//! The generated scenes: rings of nodes, each of which refers to the next.
ghost use Rattle.std.specs.Prelude.{◌≡◌, ℕ, ◌+◌, ◌<◌, ◌≤◌, ◌++◌, IfOk, OnOk};
ghost use Rattle.workload_make.specs.Scene.{node_bytes, node_count, part_bytes, ring_bytes, scene_bytes, u16_bytes, u32_bytes};

use crate::draws::Generator;
use ent_types::Memory;
use std::alloc::Global;

/// The bytes before the count of nodes in every generated scene: the mark, version 1, and the types `Position` (two
/// i32), `Seen` (an i32) and `Target` (a reference).
pub(crate) const HEAD: &[u8] =
    b"ENTS\x01\0\0\0\x03\0\x08Position\0\x02\0\0\x04Seen\0\x01\0\x06Target\0\x01\x02";

/// Returns the count of nodes of scene `k` of a number: 100 to 199.
fn count_nodes(number: u64, k: u32) -> u32
    ensures count { result ≡ node_count number k }
    ensures some { 0 < result }
    ensures few { result < 200 }
{
    let mut generator = Generator {
        state: number.wrapping_add(u64::from(k)),
    };
    100 + generator.draw(100)
}

/// Appends a number of two bytes.
#[tactic(auto, unfolding(crate::specs::Scene::u16_bytes))]
fn push_u16(bytes: &mut Vec<u8>, value: u16) -> Result<(), Memory>
    ensures { OnOk result (bytes.new.items ≡ bytes.old.items ++ u16_bytes value) }
{
    bytes.extend_from_slice(&value.to_le_bytes())?;
    Ok(())
}

/// Appends a number of four bytes.
#[tactic(auto, unfolding(crate::specs::Scene::u32_bytes))]
fn push_u32(bytes: &mut Vec<u8>, value: u32) -> Result<(), Memory>
    ensures { OnOk result (bytes.new.items ≡ bytes.old.items ++ u32_bytes value) }
{
    bytes.extend_from_slice(&value.to_le_bytes())?;
    Ok(())
}

/// Appends a part of a node: the place of its type in the file, and its fields, of four bytes each.
#[tactic(auto, unfolding(crate::specs::Scene::part_bytes))]
fn push_part(bytes: &mut Vec<u8>, place: u16, fields: &[u32]) -> Result<(), Memory>
    ensures { OnOk result (bytes.new.items ≡ bytes.old.items ++ part_bytes place fields.now) }
{
    push_u16(bytes, place)?;
    for field in fields {
        push_u32(bytes, *field)?;
    }
    Ok(())
}

/// Appends the node with an index, of `count` nodes in all.
#[tactic(auto, unfolding(crate::specs::Scene::node_bytes))]
fn push_node(bytes: &mut Vec<u8>, k: u32, count: u32, index: u32) -> Result<(), Memory>
    requires { index < count }
    ensures { OnOk result (bytes.new.items ≡ bytes.old.items ++ node_bytes k count index) }
{
    push_u32(bytes, index)?;
    push_u32(bytes, 1)?;
    push_u16(bytes, 3)?;
    push_part(bytes, 0, &[index, k])?;
    push_part(bytes, 1, &[0])?;
    push_part(bytes, 2, &[(index + 1) % count, 1])?;
    Ok(())
}

/// Appends all nodes of a scene, in order of their indexes.
#[tactic(auto, using(crate::proofs::Rings::flat_map_range_more))]
fn push_ring(bytes: &mut Vec<u8>, k: u32, count: u32) -> Result<(), Memory>
    ensures { OnOk result (bytes.new.items ≡ bytes.old.items ++ ring_bytes k count) }
{
    for index in 0..count {
        push_node(bytes, k, count, index)?;
    }
    Ok(())
}

/// Returns the bytes of scene `k` of a number: a scene file that the scenario of that number accepts.
///
/// The generator is entsim's own. Each number of 64 bits has two scenes, and equal numbers have equal bytes.
pub fn scene_of(alloc: Global, number: u64, k: u32) -> Result<Vec<u8>, Memory>
    requires first { 1 ≤ k }
    requires last { k ≤ 2 }
    ensures { IfOk result (λ bytes. bytes.items ≡ scene_bytes number k) }
{
    let count = count_nodes(number, k);
    let mut bytes = Vec::with_capacity(alloc, HEAD.len() + 4 + 36 * count as usize)?;
    bytes.extend_from_slice(HEAD)?;
    push_u32(&mut bytes, count)?;
    push_ring(&mut bytes, k, count)?;
    Ok(bytes)
}
