//! Laws of items. Each is a function that does nothing, whose contract is the law.
ghost use Rattle.std.specs.Prelude.{◌≡◌, ◌<◌, ℕ, List, length, if◌then◌else◌};
ghost use Rattle.ent_types.specs.declared.type_info.TypeInfo.{TypeInfo};
ghost use Rattle.enable_bits.specs.Masks.{has};
ghost use Rattle.world_model.specs.Row.{Row};
ghost use Rattle.world_model.specs.World.{Home};
ghost use Rattle.expr_eval.specs.Values.{OtherRows};
ghost use Rattle.block_columns.specs.Places.{at_places};
ghost use Rattle.chunk_block.specs.Blocks.{row_in};
ghost use Rattle.scenario_record.specs.declared.record.SystemEntry.{SystemEntry};
ghost use Rattle.run_model.specs.Job.{Text, after_texts, texts_of};
ghost use Rattle.run_model.specs.Query.{matches};
ghost use Rattle.run_model.specs.Run.{rows_after};
ghost use Rattle.item_run.specs.Seats.{Seat, after_texts_on, spot_at};

/// Texts done one after another, each on all rows of a mask, are the texts done row by row.
pub fn texts_are_done_row_by_row()
    ensures { (seat : Seat) (texts : List Text) (mask : List ℕ) (rows : List Row)
        → after_texts_on seat texts mask rows
        ≡ at_places (λ k r. if has mask k then record r { cells = after_texts seat.registry seat.others (spot_at seat k) seat.home r.entity texts r.cells } else r) 0 rows }
{}

/// The texts of a system, done on the matching rows of a block, leave the rows that a run leaves.
pub fn items_do_what_runs_do()
    ensures { (registry : List TypeInfo) (s : SystemEntry) (others : OtherRows) (frame item : ℕ) (home : Home) (mask : List ℕ) (rows : List Row)
        → ((k : ℕ) → k < length rows → has mask k ≡ matches registry s (record { home = home; row = row_in k rows }))
        → after_texts_on (record { registry = registry; home = home; others = others; item = item; frame = frame }) (texts_of s) mask rows
        ≡ rows_after registry s others frame item home 0 rows }
{}
