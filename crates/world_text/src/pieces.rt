//! The pieces of a line, each appended to one buffer.
ghost use Rattle.std.specs.Prelude.{◌≡◌, ◌≤◌, ◌++◌, ◌/◌, codes, length, take, drop, OnOk};
ghost use Rattle.std.specs.List.{flat_map};
ghost use Rattle.ent_types.specs.declared.value.Value.TheVariants as value;
ghost use Rattle.world_text.specs.Lines.{elements_of, elements_text, entity_text, frame_text, value_text, values_text, word_text};

use ent_types::{Entity, Value};
use itoa::{Buffer, Integer};
use std::alloc::AllocError;

/// Appends a number.
pub(crate) fn push_number<I: Integer>(line: &mut Vec<u8>, number: I) -> Result<(), AllocError>
    ensures { OnOk result (line.new.items ≡ line.old.items ++ I.text number) }
{
    let mut digits = Buffer::new();
    line.extend_from_slice(digits.format(number).as_bytes())
}

/// Appends a key, and a number after it.
#[tactic(auto, unfolding(crate::specs::Lines::word_text))]
pub(crate) fn push_key_number<I: Integer>(
    line: &mut Vec<u8>,
    key: &[u8],
    number: I,
) -> Result<(), AllocError>
    ensures { OnOk result (line.new.items ≡ line.old.items ++ word_text key.now (I.text number)) }
{
    line.extend_from_slice(key)?;
    push_number(line, number)
}

/// Appends a key, and a word after it.
#[tactic(auto, unfolding(crate::specs::Lines::word_text))]
pub(crate) fn push_key_word(line: &mut Vec<u8>, key: &[u8], word: &[u8]) -> Result<(), AllocError>
    ensures { OnOk result (line.new.items ≡ line.old.items ++ word_text key.now word.now) }
{
    line.extend_from_slice(key)?;
    line.extend_from_slice(word)
}

/// Appends how most lines begin: a word, and the frame.
#[tactic(auto, unfolding(crate::specs::Lines::frame_text))]
pub(crate) fn push_frame(line: &mut Vec<u8>, word: &[u8], frame: u32) -> Result<(), AllocError>
    ensures { OnOk result (line.new.items ≡ line.old.items ++ frame_text word.now frame) }
{
    line.extend_from_slice(word)?;
    push_key_number(line, b" frame=", frame)
}

/// Appends `index:version`.
#[tactic(auto, unfolding(crate::specs::Lines::entity_text))]
pub(crate) fn push_entity(line: &mut Vec<u8>, entity: Entity) -> Result<(), AllocError>
    ensures { OnOk result (line.new.items ≡ line.old.items ++ entity_text entity) }
{
    push_number(line, entity.index)?;
    line.push(b':')?;
    push_number(line, entity.version)
}

/// Appends a reference: `index:version`, or `null` for the null entity.
#[tactic(auto, unfolding(crate::specs::Lines::value_text))]
fn push_reference(line: &mut Vec<u8>, entity: Entity) -> Result<(), AllocError>
    ensures { OnOk result (line.new.items ≡ line.old.items ++ value_text (value.Ref entity)) }
{
    if entity.index == 0 && entity.version == 0 {
        return line.extend_from_slice(b"null");
    }
    push_entity(line, entity)
}

/// Appends the value of a field.
#[tactic(auto, unfolding(crate::specs::Lines::value_text))]
pub(crate) fn push_value(line: &mut Vec<u8>, value: Value) -> Result<(), AllocError>
    ensures { OnOk result (line.new.items ≡ line.old.items ++ value_text value) }
{
    match value {
        Value::Int(number) => push_number(line, number),
        Value::Ref(entity) => push_reference(line, entity),
    }
}

/// Appends some values, each after a comma.
fn push_further(line: &mut Vec<u8>, values: &[Value]) -> Result<(), AllocError>
    ensures { OnOk result (line.new.items ≡ line.old.items ++ flat_map (λ v. codes "," ++ value_text v) values.now) }
{
    for value in values {
        line.push(b',')?;
        push_value(line, *value)?;
    }
    Ok(())
}

/// Appends the values in parentheses; nothing if there are none.
#[tactic(auto, unfolding(crate::specs::Lines::values_text))]
pub(crate) fn push_values(line: &mut Vec<u8>, values: &[Value]) -> Result<(), AllocError>
    ensures { OnOk result (line.new.items ≡ line.old.items ++ values_text values.now) }
{
    let Some((first, further)) = values.split_first() else {
        return Ok(());
    };
    line.push(b'(')?;
    push_value(line, *first)?;
    push_further(line, further)?;
    line.push(b')')?;
    Ok(())
}

/// Appends the elements with these values, of `width` values each, and each after a comma.
fn push_further_elements(
    line: &mut Vec<u8>,
    values: &[Value],
    width: usize,
) -> Result<(), AllocError>
    requires { 1 ≤ width }
    ensures { OnOk result (line.new.items ≡ line.old.items
        ++ flat_map (λ element. codes "," ++ values_text element) (elements_of width (length values.now / width) values.now)) }
{
    let mut left = values;
    while left.len() >= width {
        let (element, further) = left.split_at(width);
        line.push(b',')?;
        push_values(line, element)?;
        left = further;
    }
    Ok(())
}

/// Appends the elements with these values, of `width` values each, in brackets.
#[tactic(auto, unfolding(crate::specs::Lines::elements_text))]
pub(crate) fn push_elements(
    line: &mut Vec<u8>,
    values: &[Value],
    width: usize,
) -> Result<(), AllocError>
    requires { 1 ≤ width }
    ensures { OnOk result (line.new.items ≡ line.old.items ++ elements_text width values.now) }
{
    if values.len() < width {
        line.extend_from_slice(b"[]")?;
        return Ok(());
    }
    let (first, further) = values.split_at(width);
    line.push(b'[')?;
    push_values(line, first)?;
    push_further_elements(line, further, width)?;
    line.push(b']')?;
    Ok(())
}
