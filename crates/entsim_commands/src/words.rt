//! The command line: the words after the program's name, and the command that they name.
//!
//! A command's files or number come first, its options after them. Any list of words that isn't in the table of `Command`
//! is refused.
ghost use Rattle.std.specs.Prelude.{List, ◌≡◌, ℕ, map, option_map, option_copied, string_bytes};
ghost use Rattle.entsim_commands.specs.Words.{command_of, command_view, file_of, lone_file, run_of, dump_of, make_of, bench_of};

mod number;
mod options;

use number::read_number;
use options::read_options;

/// A command with its arguments. The words are this project's own.
#[derive(Clone, Copy, Debug, PartialEq, Eq)]
pub enum Command<'a> {
    /// Runs the scenario and prints the run: `run FILE [--workers N] [--trace]`.
    Run {
        file: &'a str,
        workers: Option<u32>,
        trace: bool,
    },
    /// Reads and checks the scenario: `check FILE`.
    Check {
        file: &'a str,
    },
    /// Prints the blocks after the spawns: `layout FILE`.
    Layout {
        file: &'a str,
    },
    /// Prints the phases of frame 1: `plan FILE`.
    Plan {
        file: &'a str,
    },
    /// Prints the scene file, the second, by the types of the scenario, the first: `dump FILE FILE`.
    Dump {
        scenario: &'a str,
        scene: &'a str,
    },
    /// Prints the generated scenario, or the generated scene K: `make NUMBER [--scene K]`.
    Make {
        number: u64,
        scene: Option<u32>,
    },
    /// Makes a scenario, runs it and sums up: `bench NUMBER [--workers N]`.
    Bench {
        number: u64,
        workers: Option<u32>,
    },
}

/// Returns the command that the words name, or `None` if they name none.
///
/// A number has decimal digits without a leading zero. A file's name isn't empty and doesn't begin with `-`. Each option
/// is allowed once, and only with a command that has it. The call takes no memory.
pub fn read_words<'a>(words: &'a [String]) -> Option<Command<'a>>
    ensures { option_map command_view result ≡ command_of (map string_bytes words.now) }
{
    let (name, rest) = words.split_first()?;
    match name.as_str() {
        "run" => read_run(rest),
        "check" => Some(Command::Check {
            file: read_lone_file(rest)?,
        }),
        "layout" => Some(Command::Layout {
            file: read_lone_file(rest)?,
        }),
        "plan" => Some(Command::Plan {
            file: read_lone_file(rest)?,
        }),
        "dump" => read_dump(rest),
        "make" => read_make(rest),
        "bench" => read_bench(rest),
        _ => None,
    }
}

/// Returns the word if it may name a file.
fn read_file(word: &str) -> Option<&str>
    ensures { option_copied result ≡ file_of word.now }
{
    match word.as_bytes() {
        [] | [b'-', ..] => None,
        _ => Some(word),
    }
}

/// Reads the file of a command that takes nothing else.
fn read_lone_file(words: &[String]) -> Option<&str>
    ensures { option_copied result ≡ lone_file (map string_bytes words.now) }
{
    match words {
        [file] => read_file(file.as_str()),
        _ => None,
    }
}

/// Reads `FILE [--workers N] [--trace]`.
fn read_run<'a>(words: &'a [String]) -> Option<Command<'a>>
    ensures { option_map command_view result ≡ run_of (map string_bytes words.now) }
{
    let (file, rest) = words.split_first()?;
    let file = read_file(file.as_str())?;
    let options = read_options(rest)?;
    if options.scene.is_some() {
        return None;
    }
    Some(Command::Run {
        file,
        workers: options.workers,
        trace: options.trace,
    })
}

/// Reads `FILE FILE`.
fn read_dump<'a>(words: &'a [String]) -> Option<Command<'a>>
    ensures { option_map command_view result ≡ dump_of (map string_bytes words.now) }
{
    match words {
        [scenario, scene] => Some(Command::Dump {
            scenario: read_file(scenario.as_str())?,
            scene: read_file(scene.as_str())?,
        }),
        _ => None,
    }
}

/// Reads `NUMBER [--scene K]`.
fn read_make<'a>(words: &'a [String]) -> Option<Command<'a>>
    ensures { option_map command_view result ≡ make_of (map string_bytes words.now) }
{
    let (number, rest) = words.split_first()?;
    let number = read_number(number.as_str())?;
    let options = read_options(rest)?;
    if options.workers.is_some() || options.trace {
        return None;
    }
    Some(Command::Make {
        number,
        scene: options.scene,
    })
}

/// Reads `NUMBER [--workers N]`.
fn read_bench<'a>(words: &'a [String]) -> Option<Command<'a>>
    ensures { option_map command_view result ≡ bench_of (map string_bytes words.now) }
{
    let (number, rest) = words.split_first()?;
    let number = read_number(number.as_str())?;
    let options = read_options(rest)?;
    if options.trace || options.scene.is_some() {
        return None;
    }
    Some(Command::Bench {
        number,
        workers: options.workers,
    })
}
