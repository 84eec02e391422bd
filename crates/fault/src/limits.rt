// The limits that presets and rings are held to.
ghost use Rattle.std.specs.Prelude.{◌≡◌};
ghost use Rattle.fault.specs.Limits.{word_count};

/// The smallest alphabet size q.
pub const LEAST_LETTERS: u64 = 2;

/// The largest alphabet size q.
pub const MOST_LETTERS: u64 = 8;

/// The largest window n of a rule; the smallest is 1.
pub const MOST_WINDOW: u64 = 12;

/// The largest width k of a density; the smallest is 1.
pub const MOST_WIDTH: u64 = 12;

/// The most words of a rule's window, of a density's width or of a label.
pub const MOST_WORDS: u64 = 4096;

/// The most cells of a ring; the fewest is 1.
pub const MOST_CELLS: usize = 4096;

/// How many words of m letters there are, q^m, where q is an alphabet size and there are at most `MOST_WORDS`;
/// otherwise none. There is one word of no letters.
pub fn word_count(q: u64, m: u64) -> Option<usize>
    ensures { result ≡ word_count q m }
{
    if q < LEAST_LETTERS || q > MOST_LETTERS {
        return None;
    }
    // Longer words are too many in every alphabet.
    if m > MOST_WINDOW {
        return None;
    }
    let count = q.pow(m as u32);
    if count > MOST_WORDS {
        return None;
    }
    Some(count as usize)
}
