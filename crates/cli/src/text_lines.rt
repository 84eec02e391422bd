// The lines of a script.
ghost use Rattle.std.specs.Prelude.{◌≡◌, ◌+◌, ◌^◌, ◌<◌, length, IfSome};
ghost use Rattle.std.specs.Iterator.{YieldsFirstBy, item_count};
ghost use Rattle.cli.specs.Lines.{lines, cut_lines};

use console::{Class, Split, cut};

// A line, and its number counted from 1.
#[derive(Clone, Copy)]
pub(crate) struct NumberedLine<'a> {
    pub number: usize,
    pub text: &'a [u8],
}

// The lines of a text, one after another: how many have passed, and the text after them.
#[derive(Clone, Copy)]
pub(crate) struct TextLines<'a> {
    pub passed: usize,
    pub text: &'a [u8],
    // the number of a later line is a number of 64 bits
    ghost fits: { passed + length text.now < 2 ^ 64 },
}

// Cuts a text after its first line, without the byte that ends it, if there is one.
fn first_line(text: &[u8]) -> Option<Split<'_>>
    ensures lines { lines text.now ≡ cut_lines result }
    ensures shorter { IfSome result (λ s. length s.past.now < length text.now) }
{
    if text.is_empty() {
        return None;
    }
    let line = cut(Class::NotNewline, text);
    match line.past {
        [_, past @ ..] => Some(Split {
            leading: line.leading,
            past,
        }),
        [] => Some(line),
    }
}

impl<'a> Iterator for TextLines<'a> {
    ghost use Rattle.cli.specs.Scripts.{numbered_of, lines_left};

    type Item = NumberedLine<'a>;

    ghost next_gives = { YieldsFirstBy numbered_of lines_left };

    ghost remaining = { item_count lines_left };

    fn next(&mut self) -> Option<NumberedLine<'a>> {
        let line = first_line(self.text)?;
        let number = self.passed + 1;
        *self = TextLines {
            passed: number,
            text: line.past,
        };
        Some(NumberedLine {
            number,
            text: line.leading,
        })
    }
}
