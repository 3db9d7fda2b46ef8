//! Laws of playback. Each is a function that does nothing, whose contract is the law.
ghost use Rattle.std.specs.Prelude.{◌≡◌, List, map};
ghost use Rattle.ent_types.specs.declared.point.Point.{Point};
ghost use Rattle.ent_types.specs.declared.type_info.TypeInfo.{TypeInfo};
ghost use Rattle.world_model.specs.Members.{In, AreDistinct};
ghost use Rattle.world_model.specs.World.{World, capacity};
ghost use Rattle.run_model.specs.Playback.{playback};
ghost use Rattle.run_laws.specs.Entries.{AreDifferent};
ghost use Rattle.run_laws.specs.Suits.{AllSuit as AllSuitDefined};
ghost use Rattle.command_record.specs.declared.chain.Entry.{Entry};
ghost use Rattle.command_record.specs.Chains.{ChainState, AreOwn};
ghost use Rattle.command_record.specs.Entries.{entries_at};
ghost use Rattle.playback.specs.Asked.{AllSuit};
ghost use Rattle.playback.specs.Laws.{AreOnce, NameOwnRows, note_seen};
ghost use Rattle.playback.specs.Order.{AreApart, AreArranged, all_entries};
ghost use Rattle.playback.specs.Played.{played};

/// Chains of distinct items, in each of which no two entries agree in row and number, can be arranged.
pub fn entries_of_chains_are_apart()
    ensures { (chains : List ChainState) → AreDistinct (map (λ c. c.item) chains)
        → ((c : ChainState) → In c chains → AreOwn c × AreOnce c.entries) → AreApart (all_entries chains) }
{}

/// Entries that name placeholders of their own rows alone can be arranged, if no two of them agree as the definitions have them.
pub fn entries_of_own_rows_are_apart()
    ensures { (point : Point) (es : List Entry) → NameOwnRows es → AreDifferent (entries_at point es) → AreApart es }
{}

/// Entries that name placeholders of their own rows alone can be played, if the entries suit as the definitions have them.
pub fn entries_of_own_rows_suit()
    ensures { (registry : List TypeInfo) (point : Point) (es : List Entry) → NameOwnRows es
        → AllSuitDefined registry (entries_at point es) → AllSuit registry es }
{}

/// Entries that name placeholders of their own rows alone are played as the definitions say: the same world, and the same notes.
pub fn entries_of_own_rows_play_as_defined()
    ensures { (point : Point) (w : World) (es fs : List Entry) → NameOwnRows es → AreApart es → AreArranged es fs
        → ((playback (capacity w.registry) w (entries_at point es)).world ≡ (played w fs).world)
        × (map note_seen (playback (capacity w.registry) w (entries_at point es)).notes ≡ (played w fs).notes) }
{}
