//! The entities, values and parts of a line.
//!
//! A part is `TYPE=VALUES`, with the type's number and commas between the values; `TYPE=` has no values. A value is a number, or an
//! entity as `INDEX:VERSION`. `VALUE*N` is a value that comes `N` times.

use ent_types::{Entity, Part, TypeId, Value, Values};
use std::alloc::Global;

/// Returns the entity with this index and version.
fn entity(index: &str, version: &str) -> Option<Entity> {
    Some(Entity {
        index: index.parse::<u32>().ok()?,
        version: version.parse::<u32>().ok()?,
    })
}

/// Returns the entity that a word is.
pub(crate) fn read_entity(word: &str) -> Option<Entity> {
    match word.split_once(':') {
        Some((index, version)) => entity(index, version),
        None => None,
    }
}

fn read_number(word: &str) -> Option<Value> {
    match word.parse::<i64>() {
        Ok(number) => Some(Value::Int(number)),
        Err(_) => None,
    }
}

fn read_value(word: &str) -> Option<Value> {
    match word.split_once(':') {
        Some((index, version)) => Some(Value::Ref(entity(index, version)?)),
        None => read_number(word),
    }
}

/// Adds a value as often as `count` says.
fn push_times(values: &mut Values, value: Value, count: u32) -> bool {
    for _ in 0..count {
        if values.push(value).is_err() {
            return false;
        }
    }
    true
}

/// Returns the value that a word is, and how often it comes.
fn read_times(word: &str) -> Option<(Value, u32)> {
    match word.split_once('*') {
        Some((value, count)) => Some((read_value(value)?, count.parse::<u32>().ok()?)),
        None => Some((read_value(word)?, 1)),
    }
}

/// Adds the values of a word. An empty word has none.
fn push_word(values: &mut Values, word: &str) -> bool {
    if word.is_empty() {
        return true;
    }
    match read_times(word) {
        Some((value, count)) => push_times(values, value, count),
        None => false,
    }
}

fn push_words(values: &mut Values, words: &str) -> bool {
    for word in words.split(',') {
        if !push_word(values, word) {
            return false;
        }
    }
    true
}

fn part(alloc: Global, ty: TypeId, words: &str) -> Option<Part> {
    let mut values = Values::new(alloc);
    if push_words(&mut values, words) {
        Some(Part { ty, values })
    } else {
        None
    }
}

/// Returns the part that a word is.
fn read_part(alloc: Global, word: &str) -> Option<Part> {
    let (ty, words) = word.split_once('=')?;
    let ty = TypeId(ty.parse::<u16>().ok()?);
    part(alloc, ty, words)
}

/// Adds the part that a word is. An empty word has none.
fn push_part(alloc: Global, parts: &mut Vec<Part>, word: &str) -> bool {
    if word.is_empty() {
        return true;
    }
    match read_part(alloc, word) {
        Some(part) => parts.push(part).is_ok(),
        None => false,
    }
}

/// Adds the parts with spaces between them. `false` if a word isn't one.
pub(crate) fn push_parts(alloc: Global, parts: &mut Vec<Part>, words: &str) -> bool {
    for word in words.split(' ') {
        if !push_part(alloc, parts, word) {
            return false;
        }
    }
    true
}
