//! Numbers on the command line.
ghost use Rattle.std.specs.Prelude.{◌≡◌, ℕ};
ghost use Rattle.entsim_commands.specs.Words.{number_of, number_between};

/// Reads a number: decimal digits without a leading zero, at most `u64::MAX`.
pub fn read_number(word: &str) -> Option<u64>
    ensures { result ≡ number_of word.now }
{
    if word == "0" {
        return Some(0);
    }
    // `parse` would take a leading zero, and a sign.
    if word.starts_with('0') {
        return None;
    }
    if word.starts_with('+') {
        return None;
    }
    word.parse().ok()
}

/// Reads a number from `low` to `high`.
pub fn read_number_between(word: &str, low: u32, high: u32) -> Option<u32>
    ensures { result ≡ number_between low high word.now }
{
    let number = u32::try_from(read_number(word)?).ok()?;
    if low <= number && number <= high {
        Some(number)
    } else {
        None
    }
}
