//! A law of the lines: a function that does nothing, whose contract is the law.
ghost use Rattle.std.specs.Prelude.{◌≡◌, ℕ};
ghost use Rattle.world_model.specs.World.{World};
ghost use Rattle.world_model.specs.Versions.{world_versions};
ghost use Rattle.world_text.specs.Lines.{world_text};

/// The lines of a world show none of its versions: not the present one, and not those of the marks. So a world of the code has the
/// lines of the world of moments for which it stands.
pub fn lines_show_no_version()
    ensures { (version : ℕ → ℕ) (frames : ℕ) (w : World) → world_text frames (world_versions version w) ≡ world_text frames w }
{}
