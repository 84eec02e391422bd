// A place in a text.
ghost use Rattle.std.specs.Prelude.{◌≡◌, ◌+◌, ◌^◌, ◌<◌, length};

use crate::cutting::is_blank;

// How many lines end before the place, and the text from there on.
#[derive(Clone, Copy)]
pub(crate) struct Place<'a> {
    pub passed: usize,
    pub text: &'a [u8],
    // the number of a later line is a number of 64 bits
    ghost fits: { passed + length text.now < 2 ^ 64 },
}

impl<'a> Place<'a> {
    ghost use Rattle.console.specs.Places.{place_meant, next_place};

    // The place of the next word, or of the text's end.
    pub(crate) fn next_word(self) -> Place<'a>
        ensures { place_meant result ≡ next_place (place_meant self.entry) }
    {
        let mut passed = self.passed;
        for (i, byte) in self.text.iter().enumerate() {
            if *byte == b'\n' {
                passed += 1;
            } else if !is_blank(*byte) {
                return Place {
                    passed,
                    text: &self.text[i..],
                };
            }
        }
        Place { passed, text: &[] }
    }
}
