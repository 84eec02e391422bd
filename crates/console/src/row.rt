// The lines of a page, each with one part of a preset.
ghost use Rattle.std.specs.Prelude.{◌≡◌};
ghost use Rattle.std.specs.Option.{ok_or, option_map};
ghost use Rattle.console.specs.Places.{place_meant};
ghost use Rattle.console.specs.Results.{value_as};
ghost use Rattle.console.specs.Rows.{row_of, row, only_word, word_row, kind_row, number_row, ending};
ghost use Rattle.console.specs.Cutting.{words_left};
ghost use Rattle.console.specs.declared.error.TextError.TheVariants.{Wrong};

use crate::cutting::{Class, LineWords, cut, is_text};
use crate::error::{Expected, TextError};
use crate::kind::kind_named;
use crate::names::Named;
use crate::number::read_number;
use crate::page_part::PagePart;
use crate::place::Place;
use charge::ChargeKind;

// What a line says, its number counted from 1, and the place after it.
#[derive(Clone, Copy)]
pub(crate) struct Row<'a, T> {
    pub value: T,
    pub line: usize,
    pub after: Place<'a>,
}

impl<'a, T: Copy> Row<'a, T> {
    // The row with what its value stands for, where that is something.
    fn with<U>(self, value: Option<U>, expected: Expected) -> Result<Row<'a, U>, TextError>
        ensures { let was = self.entry in
            result
            ≡ ok_or
            (option_map (λ v. record { value = v; line = was.line; after = was.after }) value)
            (Wrong was.line expected) }
    {
        let value = value.ok_or(TextError::Wrong {
            line: self.line,
            expected,
        })?;
        Ok(Row {
            value,
            line: self.line,
            after: self.after,
        })
    }
}

// The words after the part's name in the part's line.
pub(crate) fn read_row<'a>(
    part: PagePart,
    place: Place<'a>,
) -> Result<Row<'a, LineWords<'a>>, TextError>
    ensures { value_as (row_of words_left) result ≡ row part (place_meant place.entry) }
{
    let start = place.next_word();
    if start.text.is_empty() {
        return Err(TextError::Ended { due: part });
    }
    let line = start.passed + 1;
    let wrong = TextError::Wrong {
        line,
        expected: Expected::Name(part),
    };
    let parts = cut(Class::NotNewline, start.text);
    let mut words = LineWords {
        line: parts.leading,
    };
    let Some(name) = words.next() else {
        return Err(wrong);
    };
    if !is_text(name, part.name()) {
        return Err(wrong);
    }
    Ok(Row {
        value: words,
        line,
        after: Place {
            passed: start.passed,
            text: parts.past,
        },
    })
}

// The only word of a line.
fn only_word<'a>(expected: Expected, row: Row<'a, LineWords<'a>>) -> Result<&'a [u8], TextError>
    ensures { value_as (λ s. s.now) result
        ≡ only_word expected row.entry.line (words_left row.entry.value) }
{
    let line = row.line;
    let mut words = row.value;
    let Some(word) = words.next() else {
        return Err(TextError::Wrong { line, expected });
    };
    if words.next().is_some() {
        return Err(TextError::Wrong {
            line,
            expected: Expected::LineEnd,
        });
    }
    Ok(word)
}

// The only word after the part's name in the part's line.
fn read_word<'a>(
    part: PagePart,
    expected: Expected,
    place: Place<'a>,
) -> Result<Row<'a, &'a [u8]>, TextError>
    ensures { value_as (row_of (λ s. s.now)) result
        ≡ word_row part expected (place_meant place.entry) }
{
    let row = read_row(part, place)?;
    let word = only_word(expected, row)?;
    row.with(Some(word), expected)
}

// The number in the part's line.
pub(crate) fn read_number_row<'a>(
    part: PagePart,
    place: Place<'a>,
) -> Result<Row<'a, u64>, TextError>
    ensures { value_as (row_of (λ v. v)) result ≡ number_row part (place_meant place.entry) }
{
    let row = read_word(part, Expected::Number, place)?;
    row.with(read_number(row.value), Expected::Number)
}

// The kind of charge in its line.
pub(crate) fn read_kind_row<'a>(place: Place<'a>) -> Result<Row<'a, ChargeKind>, TextError>
    ensures { value_as (row_of (λ v. v)) result ≡ kind_row (place_meant place.entry) }
{
    let row = read_word(PagePart::Kind, Expected::Kind, place)?;
    row.with(kind_named(row.value), Expected::Kind)
}

// The line with the number of bytes, which may be left out, and then the end of the text.
pub(crate) fn read_end(place: Place<'_>) -> Result<(), TextError>
    ensures { result ≡ ending (place_meant place.entry) }
{
    if place.next_word().text.is_empty() {
        return Ok(());
    }
    let bytes = read_number_row(PagePart::Bytes, place)?;
    let end = bytes.after.next_word();
    if !end.text.is_empty() {
        return Err(TextError::Wrong {
            line: end.passed + 1,
            expected: Expected::TextEnd,
        });
    }
    Ok(())
}
