// A line of numbers, taken one after another; past the last one each number is 0.
use std::alloc::{AllocError, Global};
use std::vec::IntoIter;

#[derive(Drop)]
pub struct Numbers {
    numbers: IntoIter<i64>,
}

impl Numbers {
    pub(crate) fn parse(alloc: Global, line: &str) -> Result<Numbers, AllocError> {
        let numbers: Vec<i64> = line
            .split(' ')
            .map(|word| word.parse::<i64>().unwrap_or(0))
            .collect(alloc)?;
        Ok(Numbers {
            numbers: numbers.into_iter(),
        })
    }

    pub(crate) fn signed(&mut self) -> i64 {
        self.numbers.next().unwrap_or(0)
    }

    pub(crate) fn plain(&mut self) -> u64 {
        u64::try_from(self.signed()).unwrap_or(0)
    }

    pub(crate) fn count(&mut self) -> usize {
        usize::try_from(self.signed()).unwrap_or(0)
    }

    // As many letters as the next number says.
    pub(crate) fn letters(&mut self, alloc: Global) -> Result<Vec<u8>, AllocError> {
        let mut letters = Vec::new(alloc);
        for _ in 0..self.count() {
            letters.push(u8::try_from(self.signed()).unwrap_or(0))?;
        }
        Ok(letters)
    }
}
