//! Entries played one after another.
ghost use Rattle.std.specs.Prelude.{◌≡◌, ℕ, true, ◌⊎◌, [], ◌∷◌, ◌++◌, if◌then◌else◌, Some, OnOk, OnErr};
ghost use Rattle.world_model.specs.World.{capacity};
ghost use Rattle.structural_ops.specs.Worlds.{Grows};
ghost use Rattle.playback.specs.Asked.{AllSuit, CommandSuits};
ghost use Rattle.playback.specs.Makers.{made_in, maker, maker_of, same_maker};
ghost use Rattle.playback.specs.Named.{IsKept};
ghost use Rattle.playback.specs.Played.{Playing, Plays, after_entry};
ghost use Rattle.playback.specs.Players.{IsAt};

use crate::apply::apply;
use crate::made::{Made, Maker};
use crate::names::names_any;
use command_record::Entry;
use ent_types::{Entity, Memory, Part, Sequence, Skip};
use std::alloc::Global;
use structural_ops::{OpFault, World};

/// An entry that was skipped.
#[derive(Clone, Copy, Debug, PartialEq, Eq)]
pub struct Note {
    /// The number of the item.
    pub item: u32,
    /// The place of the row in its block.
    pub row: u32,
    /// The command's place in the system, from 0.
    pub number: u32,
    /// Why it was skipped.
    pub skip: Skip,
}

/// What a playback keeps.
#[derive(Drop)]
struct Player {
    /// Whether a placeholder may stand for an entity that is made.
    keeps: bool,
    made: Made,
    notes: Sequence<Note>,
    /// A buffer for the parts of new rows.
    parts: Vec<Part>,
}

/// Keeps the entity that an entry made.
fn keep(player: &mut Player, entry: &Entry, e: Entity) -> Result<(), Memory>
    ensures made { OnOk result (player.old.keeps ≡ true → (item row number : ℕ) → made_in player.new.made item row number ≡ (if same_maker (maker_of entry.now) (maker item row number) then Some e else made_in player.old.made item row number)) }
    ensures notes { player.new.notes ≡ player.old.notes }
    ensures keeps { player.new.keeps ≡ player.old.keeps }
{
    if !player.keeps {
        return Ok(());
    }
    player.made.add(
        Maker {
            item: entry.item,
            row: entry.row,
            number: entry.number,
        },
        e,
    )
}

/// Notes that an entry was skipped.
fn add_note(player: &mut Player, entry: &Entry, skip: Skip) -> Result<(), Memory>
    ensures made { player.new.made ≡ player.old.made }
    ensures notes { OnOk result (player.new.notes ≡ player.old.notes ++ record { item = entry.now.item; row = entry.now.row; number = entry.now.number; skip = skip } ∷ []) }
    ensures keeps { player.new.keeps ≡ player.old.keeps }
{
    player.notes.push(Note {
        item: entry.item,
        row: entry.row,
        number: entry.number,
        skip,
    })
}

/// Plays an entry.
fn play_entry(
    alloc: Global,
    world: &mut World,
    player: &mut Player,
    entry: &Entry,
) -> Result<(), Memory>
    requires suits { CommandSuits world.old.world.registry entry.now.command }
    requires kept { IsKept player.old.keeps entry.now.command }
    ensures ok { OnOk result ((p : Playing) → IsAt p world.old player.old → IsAt (after_entry (capacity p.world.registry) p entry.now) world.new player.new) }
    ensures err { OnErr result ((p : Playing) → IsAt p world.old player.old → (world.new.world ≡ p.world) ⊎ (world.new.world ≡ (after_entry (capacity p.world.registry) p entry.now).world)) }
    ensures archetypes { Grows world.old.archetypes world.new.archetypes }
    ensures keeps { player.new.keeps ≡ player.old.keeps }
{
    match apply(
        alloc,
        world,
        &player.made,
        entry.item,
        &entry.command,
        &mut player.parts,
    ) {
        Ok(None) => Ok(()),
        Ok(Some(e)) => keep(player, entry, e),
        Err(OpFault::Skip(skip)) => add_note(player, entry, skip),
        Err(OpFault::Memory) => Err(Memory),
    }
}

/// Plays entries in the order in which they stand, each as one operation of the world, and returns a note for each that was
/// skipped.
///
/// A placeholder stands for the entity that its entry made before. If none was made, a target is skipped as `NoEntity`, and a
/// value is null. After `Memory` the first entries were played, and no others. Types and values must suit the world's calls,
/// whatever entities the placeholders stand for.
///
/// Entities that are made are kept only if some entry names a placeholder.
pub fn play(alloc: Global, world: &mut World, entries: &[Entry]) -> Result<Sequence<Note>, Memory>
    requires { AllSuit world.old.world.registry entries.now }
    ensures { Plays world.old world.new entries.now result }
{
    let mut player = Player {
        keeps: names_any(entries),
        made: Made::new(alloc),
        notes: Sequence::new(alloc),
        parts: Vec::new(alloc),
    };
    for entry in entries {
        play_entry(alloc, world, &mut player, entry)?;
    }
    Ok(player.notes)
}
