//! Lists that grow, with ample memory.
use ent_types::{Entity, Memory, Sequence, Value, Values};
use std::alloc::Global;

const FIVE: [Value; 5] = [
    Value::Int(1),
    Value::Ref(Entity::NULL),
    Value::Int(-3),
    Value::Int(4),
    Value::Int(5),
];

/// Returns the values, of which four are kept in place.
fn pushed(alloc: Global, values: &[Value]) -> Result<Values, Memory> {
    let mut list = Values::new(alloc);
    for value in values {
        list.push(*value)?;
    }
    Ok(list)
}

fn are_five(values: &Values, wanted: &[Value]) -> bool {
    (values.as_slice() == wanted) & (values.len() == 5) & values.get(5).is_none()
}

fn five_are_pushed(alloc: Global, five: &[Value]) -> bool {
    match pushed(alloc, five) {
        Ok(values) => are_five(&values, five),
        Err(_) => false,
    }
}

fn five_are_copied(alloc: Global, five: &[Value]) -> bool {
    match Values::from_slice(alloc, five) {
        Ok(values) => are_five(&values, five),
        Err(_) => false,
    }
}

fn begins_empty(alloc: Global) -> bool {
    Values::new(alloc).len() == 0
}

#[test]
fn values_grow_past_those_that_are_kept_in_place(rt: HostRuntime) {
    assert!(rt; five_are_pushed(rt.alloc(), &FIVE));
    assert!(rt; five_are_copied(rt.alloc(), &FIVE));
    assert!(rt; begins_empty(rt.alloc()));
}

fn counted(alloc: Global, count: u32) -> Result<Sequence<u32>, Memory> {
    let mut numbers = Sequence::new(alloc);
    for number in 0..count {
        numbers.push(number)?;
    }
    Ok(numbers)
}

fn is_counted(numbers: &Sequence<u32>) -> bool {
    (numbers.as_slice() == [0, 1, 2].as_slice())
        & (numbers.len() == 3)
        & (numbers.get(2) == Some(&2))
        & !numbers.is_empty()
}

fn three_are_counted(alloc: Global) -> bool {
    match counted(alloc, 3) {
        Ok(numbers) => {
            is_counted(&numbers) & is_counted(&Sequence::from_vec(numbers.into_vec()))
        }
        Err(_) => false,
    }
}

fn none_are_counted(alloc: Global) -> bool {
    match counted(alloc, 0) {
        Ok(numbers) => numbers.is_empty(),
        Err(_) => false,
    }
}

#[test]
fn a_sequence_grows_and_is_given_back(rt: HostRuntime) {
    assert!(rt; three_are_counted(rt.alloc()));
    assert!(rt; none_are_counted(rt.alloc()));
}
