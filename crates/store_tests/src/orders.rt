//! Orders of systems that another program, written from the rules alone, gives too.
use ent_types::Sequence;
use std::alloc::{AllocError, Global};
use system_order::Band::{First, Last, Middle};
use system_order::{Band, Child, OrderFault, order, order_by_root};

/// A child, by number from 3 on: its parent, whether it is a group, its band, and the siblings that it is to be before
/// and after.
type Line = (u32, bool, Band, &'static [u32], &'static [u32]);

/// Two systems of the first root, and one of each other root.
const ROOTS: &[Line] = &[
    (1, false, Middle, &[], &[]),
    (0, false, Middle, &[], &[]),
    (2, false, Middle, &[], &[]),
    (0, false, Middle, &[], &[]),
];

/// Children, and the order of the systems.
const ORDERS: [(&[Line], &[u32]); 6] = [
    (&[], &[]),
    (ROOTS, &[4, 6, 3, 5]),
    // Bands.
    (
        &[
            (1, false, Last, &[], &[]),
            (1, false, Middle, &[], &[]),
            (1, false, First, &[], &[]),
            (1, false, Last, &[], &[]),
            (1, false, First, &[], &[]),
        ],
        &[5, 7, 4, 3, 6],
    ),
    // Siblings that are named.
    (
        &[(1, false, Middle, &[], &[4]), (1, false, Middle, &[3], &[])],
        &[4, 3],
    ),
    (
        &[
            (1, false, Middle, &[], &[6]),
            (1, false, Middle, &[], &[]),
            (1, false, Middle, &[], &[]),
            (1, false, Middle, &[], &[]),
        ],
        &[4, 5, 6, 3],
    ),
    // Groups in groups.
    (
        &[
            (1, true, Middle, &[], &[]),
            (3, true, Middle, &[], &[8]),
            (4, true, Middle, &[], &[]),
            (5, false, Middle, &[], &[]),
            (4, false, Middle, &[], &[]),
            (3, false, Middle, &[], &[]),
            (1, false, Middle, &[], &[]),
        ],
        &[8, 6, 7, 9],
    ),
];

/// Children, and the earliest child that precedes itself.
const CYCLES: [(&[Line], u32); 6] = [
    (
        &[(1, false, Last, &[], &[]), (1, false, First, &[], &[3])],
        3,
    ),
    (
        &[(1, false, Middle, &[], &[4]), (1, false, Middle, &[], &[3])],
        3,
    ),
    (
        &[(1, false, Middle, &[], &[]), (1, false, Middle, &[4], &[])],
        4,
    ),
    (
        &[
            (1, false, Middle, &[], &[4]),
            (1, false, Middle, &[5], &[]),
            (1, false, Middle, &[6], &[]),
            (1, false, Middle, &[7], &[]),
            (1, false, Middle, &[4], &[]),
        ],
        4,
    ),
    (
        &[
            (1, false, Middle, &[], &[7]),
            (1, false, Middle, &[8], &[]),
            (1, false, Middle, &[], &[]),
            (1, false, Middle, &[7], &[]),
            (1, false, Middle, &[6], &[]),
            (1, false, Middle, &[4], &[]),
        ],
        4,
    ),
    // The cycle of a root comes before that of another group.
    (
        &[
            (0, true, Middle, &[], &[]),
            (0, false, Middle, &[], &[]),
            (3, false, Middle, &[6], &[]),
            (3, false, Middle, &[5], &[]),
            (2, false, Middle, &[8], &[]),
            (2, false, Middle, &[7], &[]),
        ],
        7,
    ),
];

fn child(alloc: Global, line: Line) -> Result<Child, AllocError> {
    let (parent, is_group, band, before, after) = line;
    let before = before.to_vec(alloc)?;
    let after = after.to_vec(alloc)?;
    Ok(Child {
        parent,
        is_group,
        band,
        before: Sequence::from_vec(before),
        after: Sequence::from_vec(after),
    })
}

/// Adds a child without siblings to be before or after.
fn push_plain(
    alloc: Global,
    children: &mut Vec<Child>,
    parent: u32,
    is_group: bool,
) -> Result<(), AllocError> {
    let before = Sequence::new(alloc);
    let after = Sequence::new(alloc);
    children.push(Child {
        parent,
        is_group,
        band: Middle,
        before,
        after,
    })?;
    Ok(())
}

fn push_all(alloc: Global, children: &mut Vec<Child>, lines: &[Line]) -> Result<(), AllocError> {
    for line in lines {
        children.push(child(alloc, *line)?)?;
    }
    Ok(())
}

/// Adds the three roots.
fn push_roots(alloc: Global, children: &mut Vec<Child>) -> Result<(), AllocError> {
    for _ in 0..3 {
        push_plain(alloc, children, 0, true)?;
    }
    Ok(())
}

/// Returns the roots and these children.
fn listed(alloc: Global, lines: &[Line]) -> Result<Vec<Child>, AllocError> {
    let mut children = Vec::new(alloc);
    push_roots(alloc, &mut children)?;
    push_all(alloc, &mut children, lines)?;
    Ok(children)
}

/// Returns the order of at most 1000 children.
fn ordered(alloc: Global, children: &[Child]) -> Result<Vec<u32>, OrderFault> {
    if children.len() > 1000 {
        return Err(OrderFault::Memory);
    }
    order(alloc, children)
}

fn are_ordered(alloc: Global, children: &[Child], wanted: &[u32]) -> bool {
    match ordered(alloc, children) {
        Ok(systems) => systems.as_slice() == wanted,
        Err(_) => false,
    }
}

fn have_cycle(alloc: Global, children: &[Child], first: u32) -> bool {
    match ordered(alloc, children) {
        Ok(_) => false,
        Err(fault) => fault == OrderFault::Cycle(first),
    }
}

fn line_up(alloc: Global, lines: &[Line], wanted: &[u32]) -> bool {
    match listed(alloc, lines) {
        Ok(children) => are_ordered(alloc, &children, wanted),
        Err(_) => false,
    }
}

fn all_line_up(alloc: Global, cases: &[(&[Line], &[u32])]) -> bool {
    for (lines, wanted) in cases {
        if !line_up(alloc, lines, wanted) {
            return false;
        }
    }
    true
}

#[test]
fn systems_have_the_reference_order(rt: HostRuntime) {
    assert!(rt; all_line_up(rt.alloc(), &ORDERS));
}

fn is_refused(alloc: Global, lines: &[Line], first: u32) -> bool {
    match listed(alloc, lines) {
        Ok(children) => have_cycle(alloc, &children, first),
        Err(_) => false,
    }
}

fn all_are_refused(alloc: Global, cases: &[(&[Line], u32)]) -> bool {
    for (lines, first) in cases {
        if !is_refused(alloc, lines, *first) {
            return false;
        }
    }
    true
}

#[test]
fn a_cycle_names_its_earliest_child(rt: HostRuntime) {
    assert!(rt; all_are_refused(rt.alloc(), &CYCLES));
}

fn are(found: &Sequence<u32>, wanted: &[u32]) -> bool {
    found.as_slice() == wanted
}

fn have_roots(alloc: Global, children: &[Child]) -> bool {
    if children.len() > 1000 {
        return false;
    }
    match order_by_root(alloc, children) {
        Ok(roots) => are(&roots.initialization, &[4, 6])
            & are(&roots.simulation, &[3])
            & are(&roots.presentation, &[5]),
        Err(_) => false,
    }
}

fn roots_pass(alloc: Global, lines: &[Line]) -> bool {
    match listed(alloc, lines) {
        Ok(children) => have_roots(alloc, &children),
        Err(_) => false,
    }
}

#[test]
fn each_root_has_its_systems(rt: HostRuntime) {
    assert!(rt; roots_pass(rt.alloc(), ROOTS));
}

/// 64 groups, each in the one before it, a system in the last, and a system before them.
fn nested(alloc: Global) -> Result<Vec<Child>, AllocError> {
    let mut children = Vec::new(alloc);
    push_roots(alloc, &mut children)?;
    push_plain(alloc, &mut children, 1, true)?;
    for parent in 3..66 {
        push_plain(alloc, &mut children, parent, true)?;
    }
    push_plain(alloc, &mut children, 66, false)?;
    push_plain(alloc, &mut children, 0, false)?;
    Ok(children)
}

fn nested_groups_pass(alloc: Global) -> bool {
    match nested(alloc) {
        Ok(children) => are_ordered(alloc, &children, &[68, 67]),
        Err(_) => false,
    }
}

#[test]
fn sixty_four_groups_are_nested(rt: HostRuntime) {
    assert!(rt; nested_groups_pass(rt.alloc()));
}
