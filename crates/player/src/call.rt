// What a script asks of a player, and what it is answered.
ghost use Rattle.std.specs.Prelude.{◌≡◌};

use crate::meters::Reading;
use fault::Fault;

/// A call of a script, with what it is given beside the strips.
#[derive(Clone, Copy)]
pub enum Call<'a> {
    /// `Playing::open` with this ring, a letter a cell. Only where no ring is open.
    Open(&'a [u8]),
    /// `Playing::touch`. Like the calls below, only where a ring is open.
    Touch {
        /// The cell, counted from 0.
        site: usize,
        /// The letter that it gets.
        letter: u8,
    },
    /// `Playing::step`.
    Step,
    /// `Playing::read`.
    Read {
        /// The site, counted from 0.
        site: usize,
    },
    /// `Playing::close`.
    Close,
}

/// What a call answers. One that the state does not allow has no answer.
#[derive(Clone, Copy, PartialEq, Eq, Debug)]
pub enum Answer<C> {
    /// An open, a touch, a step or a close is done.
    Done,
    /// What a read reads.
    Reading(Reading<C>),
    /// The call is refused, and has written nothing.
    Refused(Fault),
}
