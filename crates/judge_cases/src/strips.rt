// The strips that judge and compare are lent, and what they hold afterwards.
ghost use Rattle.std.specs.Prelude.{◌≤◌, vec_len};

use crate::kind::Tried;
use crate::show::{MARK, write_charges, write_end};
use automaton::{ShownLetters, ShownWord};
use bench::Break;
use std::alloc::{AllocError, Global};
use std::io;
use std::io::Write;

// The lengths of the strips.
#[derive(Clone, Copy)]
pub struct Rooms {
    pub crossings: usize,
    pub ring: usize,
}

// The strips, and the sizes of the label's words.
#[derive(Drop)]
pub struct JudgeStrips<C> {
    pub crossings: Vec<C>,
    pub ring: Vec<u8>,
    q: usize,
    m: usize,
}

impl<C: Tried> JudgeStrips<C> {
    pub(crate) fn new(
        alloc: Global,
        rooms: Rooms,
        q: usize,
        m: usize,
    ) -> Result<JudgeStrips<C>, AllocError> {
        Ok(JudgeStrips {
            crossings: vec![in alloc; C::mark(); rooms.crossings]?,
            ring: vec![in alloc; MARK; rooms.ring]?,
            q,
            m,
        })
    }

    // How many crossings there are.
    fn heads(&self) -> usize
        ensures { result ≤ vec_len self.now.crossings }
    {
        let letters = u32::try_from(self.m).unwrap_or(0).saturating_sub(1);
        self.q.saturating_pow(letters).min(self.crossings.len())
    }

    // The crossings, and whether the strips are else as they were, `len` cells of the ring being written.
    fn write_rest<W: Write>(&self, out: &mut W, len: usize) -> io::Result<()> {
        let (crossings, others) = self.crossings.split_at(self.heads());
        write_charges(out, crossings)?;
        write_end(out, others, &self.ring[len.min(self.ring.len())..])
    }

    // One word where no word fails, and else the other with the break; then the crossings.
    pub(crate) fn write_found<W: Write>(
        &self,
        out: &mut W,
        kept: &str,
        broken: &str,
        found: Option<Break<C>>,
    ) -> io::Result<()> {
        let Some(found) = found else {
            write!(out, "{kept} ")?;
            return self.write_rest(out, 0);
        };
        let word = ShownWord {
            q: self.q.max(1),
            m: self.m,
            code: found.word,
        };
        let ring = ShownLetters {
            letters: &self.ring[..found.len.min(self.ring.len())],
        };
        let first = found.first.word();
        let second = found.second.word();
        write!(out, "{broken} {word} {ring} {first} {second} ")?;
        self.write_rest(out, found.len)
    }
}
