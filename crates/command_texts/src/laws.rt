//! Laws of commands that are made of texts. Each is a function that does nothing, whose contract is the law.
ghost use Rattle.std.specs.Prelude.{◌≡◌, ℕ, Bool, List, [], ◌∷◌};
ghost use Rattle.ent_types.specs.declared.type_info.TypeInfo.{TypeInfo};
ghost use Rattle.world_model.specs.World.{World, capacity};
ghost use Rattle.expr_eval.specs.Values.{OwnRow, OtherRows};
ghost use Rattle.expr_trees.specs.declared.tree.CommandText.{CommandText};
ghost use Rattle.scenario_record.specs.declared.record.EventAct.TheVariants.{Operate};
ghost use Rattle.run_model.specs.Clock.{Clock};
ghost use Rattle.run_model.specs.Commands.{change_of as change_defined};
ghost use Rattle.run_model.specs.Frames.{State, event_done, event_lines};
ghost use Rattle.run_model.specs.Loads.{SceneFile};
ghost use Rattle.run_model.specs.Playback.{done_by};
ghost use Rattle.run_model.specs.Tasks.{frame_event_of};
ghost use Rattle.run_laws.specs.Suits.{CommandSuits as TextSuits};
ghost use Rattle.command_record.specs.declared.chain.Entry.{Entry};
ghost use Rattle.command_record.specs.declared.command.Command.{Command};
ghost use Rattle.command_record.specs.Entries.{change_of};
ghost use Rattle.playback.specs.Asked.{AllSuit, CommandSuits};
ghost use Rattle.playback.specs.Played.{played};
ghost use Rattle.command_texts.specs.Events.{event_change, event_operation, event_skips, with_event_played};

/// The command of a text can be played if the text suits the types, whatever row it was made for.
pub fn commands_of_texts_suit()
    ensures { (registry : List TypeInfo) (own : OwnRow) (others : OtherRows) (act : CommandText) (command : Command)
        → TextSuits registry act → change_of command ≡ change_defined registry own others act → CommandSuits registry command }
{}

/// The command of an event's text can be played alone if the text suits the types.
pub fn commands_of_events_suit()
    ensures { (registry : List TypeInfo) (frame : ℕ) (act : CommandText) (entry : Entry)
        → TextSuits registry act → change_of entry.command ≡ event_change registry frame act → AllSuit registry (entry ∷ []) }
{}

/// The command of an event's text, played alone, does the event's operation: it leaves the same world, and is skipped for the same
/// cause. So the state with the world and the lines of the playback is the state after the event.
pub fn commands_of_events_play_as_defined()
    ensures world { (w : World) (frame : ℕ) (act : CommandText) (entry : Entry) → change_of entry.command ≡ event_change w.registry frame act
        → (played w (entry ∷ [])).world ≡ (done_by (capacity w.registry) w (event_operation w.registry frame act)).world }
    ensures lines { (w : World) (frame k : ℕ) (act : CommandText) (entry : Entry) → change_of entry.command ≡ event_change w.registry frame act
        → event_skips frame k (played w (entry ∷ [])).notes ≡ event_lines frame k (done_by (capacity w.registry) w (event_operation w.registry frame act)).reply }
    ensures state { (clock : Clock) (trace : Bool) (files : List ℕ → SceneFile) (frame k : ℕ) (st : State) (act : CommandText) (entry : Entry)
        → change_of entry.command ≡ event_change st.world.registry frame act
        → with_event_played frame k st (played st.world (entry ∷ []))
        ≡ event_done clock (capacity st.world.registry) trace frame st (frame_event_of files st.world.registry frame k (Operate act)) }
{}
