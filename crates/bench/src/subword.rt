// Parts of words, by their codes.
ghost use Rattle.std.specs.Prelude.{◌≡◌, ◌+◌, ◌/◌, ◌%◌, ◌^◌, ◌≤◌};

use automaton::WordSet;

// Some letters of a word, which others follow: the words of the letters that follow and of the letters themselves are
// counted once, since a power costs more than the part.
#[derive(Clone, Copy)]
pub struct Subword {
    after: usize,
    count: usize,
    ghost some: { (1 ≤ after) × (1 ≤ count) },
}

impl Subword {
    // The `letters` letters that `after` letters follow.
    pub(crate) fn of(words: WordSet, letters: usize, after: usize) -> Subword
        requires { letters + after ≤ words.m }
        ensures { (result.after ≡ words.q ^ after) × (result.count ≡ words.q ^ letters) }
    {
        Subword {
            after: words.q.pow(after as u32),
            count: words.q.pow(letters as u32),
        }
    }

    // The code of the part of the word of this code.
    pub(crate) fn code(self, code: usize) -> usize
        ensures { result ≡ code / self.after % self.count }
    {
        code / self.after % self.count
    }
}
