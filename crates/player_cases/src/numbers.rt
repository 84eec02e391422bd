// Numbers of a line, and what they stand for.
use std::alloc::{AllocError, Global};

// The numbers of a part of a line.
pub(crate) fn read_numbers(alloc: Global, part: &str) -> Result<Vec<i64>, AllocError> {
    part.split_whitespace()
        .map(|word| word.parse::<i64>().unwrap_or(0))
        .collect(alloc)
}

pub(crate) fn to_size(number: i64) -> u64 {
    u64::try_from(number).unwrap_or(0)
}

pub(crate) fn to_index(number: i64) -> usize {
    usize::try_from(number).unwrap_or(0)
}

// The length of a strip, or the plain part of a charge.
pub(crate) fn to_short(number: i64) -> u16 {
    u16::try_from(number).unwrap_or(0)
}

pub(crate) fn to_letter(number: i64) -> u8 {
    u8::try_from(number).unwrap_or(0)
}

pub(crate) fn to_letters(alloc: Global, numbers: &[i64]) -> Result<Vec<u8>, AllocError> {
    numbers
        .iter()
        .map(|number| to_letter(*number))
        .collect(alloc)
}
