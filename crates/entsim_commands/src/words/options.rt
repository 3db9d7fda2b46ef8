//! The options after a command's files or number.
ghost use Rattle.std.specs.Prelude.{List, ◌≡◌, ℕ, map, string_bytes};
ghost use Rattle.entsim_commands.specs.Words.{no_options, with_workers, with_trace, with_scene, options_of};

use super::number::read_number_between;
use ent_types::limits::MOST_WORKERS;

/// The options of a command line, with their values.
#[derive(Clone, Copy)]
pub struct Options {
    /// How many threads may run the systems, 1 to `MOST_WORKERS`: `--workers N`.
    pub workers: Option<u32>,
    /// `true` if the items are printed too: `--trace`.
    pub trace: bool,
    /// Which of the two generated scenes, 1 or 2: `--scene K`.
    pub scene: Option<u32>,
}

impl Options {
    /// Returns no option.
    fn none() -> Self
        ensures { result ≡ no_options }
    {
        Options {
            workers: None,
            trace: false,
            scene: None,
        }
    }

    fn with_workers(self, workers: u32) -> Option<Self>
        ensures { result ≡ with_workers workers self }
    {
        if self.workers.is_some() {
            return None;
        }
        Some(Options {
            workers: Some(workers),
            ..self
        })
    }

    fn with_trace(self) -> Option<Self>
        ensures { result ≡ with_trace self }
    {
        if self.trace {
            return None;
        }
        Some(Options {
            trace: true,
            ..self
        })
    }

    fn with_scene(self, scene: u32) -> Option<Self>
        ensures { result ≡ with_scene scene self }
    {
        if self.scene.is_some() {
            return None;
        }
        Some(Options {
            scene: Some(scene),
            ..self
        })
    }
}

/// Reads options in any order, each at most once. An option's value is the word after it.
pub fn read_options(words: &[String]) -> Option<Options>
    ensures { result ≡ options_of (map string_bytes words.now) }
{
    let mut options = Options::none();
    let mut left = words;
    while let Some((word, rest)) = left.split_first() {
        match word.as_str() {
            "--workers" => {
                let (value, rest) = rest.split_first()?;
                let workers = read_number_between(value.as_str(), 1, MOST_WORKERS)?;
                options = options.with_workers(workers)?;
                left = rest;
            }
            "--trace" => {
                options = options.with_trace()?;
                left = rest;
            }
            "--scene" => {
                let (value, rest) = rest.split_first()?;
                let scene = read_number_between(value.as_str(), 1, 2)?;
                options = options.with_scene(scene)?;
                left = rest;
            }
            _ => return None,
        }
    }
    Some(options)
}
