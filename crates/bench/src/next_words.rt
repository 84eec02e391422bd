// The next letters of words, by codes.
ghost use Rattle.std.specs.Prelude.{◌≡◌, ◌+◌, ◌-◌, ◌/◌, ◌%◌, ◌^◌, ◌<◌, ◌*◌, max, length, replicate, slice_index};
ghost use Rattle.fault.specs.Limits.{most_words};
ghost use Rattle.bench.specs.KeptSizes.{sized_rule, next_word, KnowsNext};

use crate::sizes::RuleSizes;
use crate::state::BenchParts;
use automaton::Rule;
use fault::limits::MOST_WORDS;

/// Room for the next letters of all words of a label, of which there are at most 4,096: 8 KiB, and nothing on the heap.
#[derive(Drop)]
pub struct NextWords {
    pub(crate) codes: [u16; MOST_WORDS as usize],
}

impl NextWords {
    ghost use Rattle.bench.specs.States.{codes_in};

    /// Room in which no next letters are known.
    pub fn new() -> NextWords
        ensures { codes_in result ≡ replicate most_words 0 }
    {
        NextWords {
            codes: [0; MOST_WORDS as usize],
        }
    }
}

impl<R: Rule, D> BenchParts<R, D> {
    // The answer for the last n letters of a word.
    fn last_letter(&self, sizes: RuleSizes, code: usize) -> u8
        ensures { result
            ≡ slice_index (R.meaning self.now.rule).answers (code % sizes.words.q ^ sizes.n) }
    {
        self.rule.answer(code % sizes.windows)
    }

    // The code of the next letters of a word, from the last letter on. Cold, so that a label that finds them in a table
    // stays small where it is inlined.
    #[cold]
    pub(crate) fn next_code(&self, sizes: RuleSizes, code: usize) -> usize
        ensures { result ≡ next_word sizes (R.meaning self.now.rule) code }
    {
        let mut prefix = code;
        let mut place = 1;
        let mut next = 0;
        for _ in 0..sizes.k {
            next += self.last_letter(sizes, prefix) as usize * place;
            place *= sizes.words.q;
            prefix /= sizes.words.q;
        }
        next
    }

    // Writes the next words of the words that are `head` with one letter more, of which all but the last next letter
    // are the last next letters of `head`.
    fn extend(&self, sizes: RuleSizes, head: usize, strip: &mut [u16])
        requires rule { sized_rule sizes (R.meaning self.now.rule) ≡ R.meaning self.now.rule }
        requires word { (length strip.old ≡ sizes.words.count)
            × (head * sizes.words.q < length strip.old) }
        requires known { KnowsNext sizes (R.meaning self.now.rule)
            (max 1 (head * sizes.words.q)) strip.old }
        ensures len { length strip.new ≡ length strip.old }
        ensures known { KnowsNext sizes (R.meaning self.now.rule)
            ((head + 1) * sizes.words.q) strip.new }
    {
        let q = sizes.words.q;
        let first = head * q;
        let kept = strip[head] as usize % sizes.kept * q;
        let place = first % sizes.windows;
        for last in 0..q {
            let letter = self.rule.answer(place + last);
            strip[first + last] = (kept + letter as usize) as u16;
        }
    }

    // Fills a strip with the next words of all words.
    fn write_next_words(&self, sizes: RuleSizes, strip: &mut [u16])
        requires rule { sized_rule sizes (R.meaning self.now.rule) ≡ R.meaning self.now.rule }
        requires room { length strip.old ≡ sizes.words.count }
        ensures len { length strip.new ≡ length strip.old }
        ensures known { KnowsNext sizes (R.meaning self.now.rule) (length strip.new) strip.new }
    {
        strip[0] = self.next_code(sizes, 0) as u16;
        for head in 0..strip.len() / sizes.words.q {
            self.extend(sizes, head, strip);
        }
    }

    // The next words of all words, in the room for them.
    pub(crate) fn next_words<'a>(&self, sizes: RuleSizes, room: &'a mut NextWords) -> &'a [u16]
        requires { sized_rule sizes (R.meaning self.now.rule) ≡ R.meaning self.now.rule }
        ensures words { length result.now ≡ sizes.words.count }
        ensures known { KnowsNext sizes (R.meaning self.now.rule) (length result.now) result.now }
    {
        let strip = &mut room.codes[..sizes.words.count];
        self.write_next_words(sizes, strip);
        strip
    }
}
