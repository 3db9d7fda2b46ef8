//! The bytes that another program, written from the rules alone, makes for chosen numbers.
use ent_types::Memory;
use std::alloc::Global;
use workload_make::{scenario_of, scene_of};

/// Numbers, each with the hash of its scenario.
const SCENARIOS: [(u64, u64); 3] = [
    (0, 4461659123785038243),
    (7, 9116620060334858103),
    (u64::MAX, 8020575962312057439),
];

/// Numbers, each with a scene, and with the length and the hash of its bytes.
const SCENES: [(u64, u32, usize, u64); 5] = [
    (0, 1, 6309, 12747171140124726595),
    (7, 1, 5229, 10946650068756798668),
    (7, 2, 5913, 18004370436922976958),
    (u64::MAX, 1, 3897, 2034227171611608061),
    (u64::MAX, 2, 6309, 16704267649160781075),
];

/// Where bytes of scene 1 of number 7 begin, and what they are: the count of nodes, the second node, and the entity
/// that the last node refers to.
const RING: [(usize, &[u8]); 3] = [
    (41, &[144, 0, 0, 0]),
    (
        81,
        &[
            1, 0, 0, 0, 1, 0, 0, 0, 3, 0, 0, 0, 1, 0, 0, 0, 1, 0, 0, 0, 1, 0, 0, 0, 0, 0, 2, 0, 2,
            0, 0, 0, 1, 0, 0, 0,
        ],
    ),
    (5221, &[0, 0, 0, 0, 1, 0, 0, 0]),
];

/// The line of the first spawn of scenario 0.
const SPAWN_LINE: &str =
    r#"with = { Position = ["n % 57", "n / 57"], Velocity = [5, 1], Health = ["50 + n % 18"], Team = [1], Awake = [] }"#;

/// The hash FNV-1a of 64 bits.
fn hash(bytes: &[u8]) -> u64 {
    let mut hash: u64 = 0xcbf2_9ce4_8422_2325;
    for byte in bytes {
        hash = (hash ^ u64::from(*byte)).wrapping_mul(0x0000_0100_0000_01b3);
    }
    hash
}

fn are_bytes(bytes: &[u8], length: usize, sum: u64) -> bool {
    (bytes.len() == length) & (hash(bytes) == sum)
}

/// Returns the bytes of a scenario. No contract says more of them here.
fn scenario(alloc: Global, number: u64) -> Result<Vec<u8>, Memory> {
    scenario_of(alloc, number)
}

/// Returns the bytes of scene 1, or of scene 2 where `second` is `true`. No contract says more of them here.
fn scene(alloc: Global, number: u64, second: bool) -> Result<Vec<u8>, Memory> {
    scene_of(alloc, number, 1 + u32::from(second))
}

fn scenario_is(alloc: Global, number: u64, sum: u64) -> bool {
    match scenario(alloc, number) {
        Ok(bytes) => are_bytes(&bytes, 1585, sum),
        Err(_) => false,
    }
}

fn scenarios_are(alloc: Global, cases: &[(u64, u64)]) -> bool {
    for (number, sum) in cases {
        if !scenario_is(alloc, *number, *sum) {
            return false;
        }
    }
    true
}

fn has_line(bytes: &[u8], line: &str) -> bool {
    match std::str::from_utf8(bytes) {
        Ok(text) => text.contains(line),
        Err(_) => false,
    }
}

fn has_spawn_line(alloc: Global) -> bool {
    match scenario(alloc, 0) {
        Ok(bytes) => has_line(&bytes, SPAWN_LINE),
        Err(_) => false,
    }
}

#[test]
fn scenarios_have_the_reference_bytes(rt: HostRuntime) {
    assert!(rt; scenarios_are(rt.alloc(), &SCENARIOS));
    assert!(rt; has_spawn_line(rt.alloc()));
}

fn scene_is(alloc: Global, number: u64, second: bool, length: usize, sum: u64) -> bool {
    match scene(alloc, number, second) {
        Ok(bytes) => are_bytes(&bytes, length, sum),
        Err(_) => false,
    }
}

fn scenes_are(alloc: Global, cases: &[(u64, u32, usize, u64)]) -> bool {
    for (number, k, length, sum) in cases {
        if !scene_is(alloc, *number, *k == 2, *length, *sum) {
            return false;
        }
    }
    true
}

/// `true` if the bytes from `at` on begin with a piece.
fn has_at(bytes: &[u8], at: usize, piece: &[u8]) -> bool {
    match bytes.get(at..) {
        Some(rest) => rest.starts_with(piece),
        None => false,
    }
}

fn has_pieces(bytes: &[u8], pieces: &[(usize, &[u8])]) -> bool {
    for (at, piece) in pieces {
        if !has_at(bytes, *at, piece) {
            return false;
        }
    }
    true
}

fn scene_is_ring(alloc: Global) -> bool {
    match scene(alloc, 7, false) {
        Ok(bytes) => has_pieces(&bytes, &RING),
        Err(_) => false,
    }
}

#[test]
fn scenes_have_the_reference_bytes(rt: HostRuntime) {
    assert!(rt; scenes_are(rt.alloc(), &SCENES));
    assert!(rt; scene_is_ring(rt.alloc()));
}
