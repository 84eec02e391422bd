// Calls as they stand on a line.
use crate::numbers::{to_index, to_letter};
use player::Call;
use std::alloc::{AllocError, Global};

// A stretch of the letters of a line, which may reach past their end.
fn stretch(letters: &[u8], start: usize, len: usize) -> &[u8] {
    let rest = &letters[start.min(letters.len())..];
    &rest[..len.min(rest.len())]
}

// The call of a number and two more that it is given.
pub(crate) fn to_call(letters: &[u8], number: i64, first: i64, second: i64) -> Call<'_> {
    match number {
        0 => Call::Open(stretch(letters, to_index(first), to_index(second))),
        1 => Call::Touch {
            site: to_index(first),
            letter: to_letter(second),
        },
        2 => Call::Step,
        3 => Call::Read {
            site: to_index(first),
        },
        _ => Call::Close,
    }
}

pub(crate) fn to_script<'a>(
    alloc: Global,
    letters: &'a [u8],
    numbers: &[i64],
) -> Result<Vec<Call<'a>>, AllocError> {
    let mut script = Vec::new(alloc);
    for row in numbers.chunks_exact(3) {
        script.push(to_call(letters, row[0], row[1], row[2]))?;
    }
    Ok(script)
}
