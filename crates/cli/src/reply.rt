// What the commands of a script are answered.
ghost use Rattle.std.specs.Prelude.{◌≡◌, Some};
ghost use Rattle.cli.specs.Commands.{command_meant};
ghost use Rattle.console.specs.Pages.{spaced};
ghost use Rattle.report.specs.Texts.{rows_text};
ghost use Rattle.cli.specs.Replies.{reply_to, reading_text, meters_row, arc_text, reply_text, ArcRight, MetersRight, ring_row, charge_word, reading_words, charge_text};

use crate::command::{Command, Verb};
use automaton::ShownLetters;
use charge::Charge;
use console::EntryWord;
use fault::{Fault, Stop};
use player::{Answer, ArcReading, Reading};
use preset::Sent;
use std::fmt;

/// What a command of a script is answered.
#[derive(Clone, Copy)]
pub enum Reply<'a, C> {
    /// No ring is open, and the command needs one.
    NoRing,
    /// A ring is open, and another is to be opened.
    RingOpen,
    /// It is done.
    Done,
    /// It is refused, by a code and a place.
    Refused(Fault),
    /// The meters of a site.
    Site(Reading<C>),
    /// The meters of each site of the ring that is open, by site.
    Meters(&'a [Reading<C>]),
    /// The meters of an arc.
    Arc {
        /// The meters.
        meters: ArcReading<C>,
        /// Whether they account for the arc's charge: now = opening + in - out + touched.
        adds_up: bool,
    },
    /// The arc has more sites than the ring.
    LongArc,
}

impl<'a, C: Charge> Reply<'a, C> {
    /// What a command of a sort is answered where it is one call, by the answer of the player. No answer is given where
    /// the call is not allowed: an open while a ring is open, and each other call while none is.
    pub fn to(verb: Verb, answer: Option<Answer<C>>) -> Reply<'a, C>
        ensures { result ≡ reply_to verb answer }
    {
        match answer {
            Some(Answer::Done) => Reply::Done,
            Some(Answer::Refused(fault)) => Reply::Refused(fault),
            Some(Answer::Reading(reading)) => Reply::Site(reading),
            None if verb == Verb::Open => Reply::RingOpen,
            None => Reply::NoRing,
        }
    }

    /// What the meters are answered, by the readings of all sites of the ring that is open: none where no ring is.
    pub fn meters(readings: &'a [Reading<C>]) -> Reply<'a, C>
        ensures { MetersRight readings.now result }
    {
        if readings.is_empty() {
            return Reply::NoRing;
        }
        Reply::Meters(readings)
    }

    /// What an arc of `len` sites from `site` on is answered, by the readings of all sites of the ring that is open:
    /// none where no ring is. A site that is not on the ring is refused by [`Stop::BadPosition`], at place 0.
    pub fn arc(readings: &[Reading<C>], site: usize, len: usize) -> Reply<'a, C>
        ensures { ArcRight C.kind readings.now site len result }
    {
        if readings.is_empty() {
            return Reply::NoRing;
        }
        if site >= readings.len() {
            return Reply::Refused(Stop::BadPosition.at(0));
        }
        match ArcReading::over(readings, site, len) {
            Some(meters) => Reply::Arc {
                meters,
                adds_up: meters.adds_up(),
            },
            None => Reply::LongArc,
        }
    }
}

// A charge as a word.
fn charge_word<C: Sent>(charge: C) -> EntryWord
    ensures { result ≡ charge_word C.sending charge }
{
    EntryWord {
        kind: C::kind(),
        entry: charge.to_entry(),
    }
}

// The meters of a site as words.
fn reading_words<C: Sent>(reading: Reading<C>) -> Reading<EntryWord>
    ensures { result ≡ reading_words C.sending reading }
{
    Reading {
        opening: charge_word(reading.opening),
        crossed: charge_word(reading.crossed),
        touched: charge_word(reading.touched),
        now: charge_word(reading.now),
    }
}

// The meters of a site as text.
#[derive(Drop)]
struct ReadingText<C> {
    reading: Reading<C>,
}

impl<C: Sent> fmt::Display for ReadingText<C> {
    ghost output = { λ r. Some (reading_text C.sending r.reading) };

    fn fmt<W: fmt::Write>(&self, f: &mut fmt::Formatter<W>) -> fmt::Result {
        let Reading {
            opening,
            crossed,
            touched,
            now,
        } = reading_words(self.reading);
        write!(
            f,
            "opening {opening}, crossed {crossed}, touched {touched}, now {now}"
        )
    }
}

// The meters of a site as a row of a table.
#[derive(Drop)]
struct MetersRow<C> {
    site: usize,
    reading: Reading<C>,
}

impl<C: Sent> fmt::Display for MetersRow<C> {
    ghost output = { λ r. Some (meters_row C.sending r.site r.reading) };

    fn fmt<W: fmt::Write>(&self, f: &mut fmt::Formatter<W>) -> fmt::Result {
        let site = self.site;
        let Reading {
            opening,
            crossed,
            touched,
            now,
        } = reading_words(self.reading);
        writeln!(f, "{site}\t{opening}\t{crossed}\t{touched}\t{now}")
    }
}

// The meters of all sites, a row each.
#[derive(Drop)]
struct MetersRows<'a, C> {
    readings: &'a [Reading<C>],
}

impl<C: Sent> fmt::Display for MetersRows<'_, C> {
    ghost output = { λ t. Some (rows_text (meters_row C.sending) 0 t.readings.now) };

    fn fmt<W: fmt::Write>(&self, f: &mut fmt::Formatter<W>) -> fmt::Result {
        for (site, reading) in self.readings.iter().enumerate() {
            let row = MetersRow {
                site,
                reading: *reading,
            };
            write!(f, "{row}")?;
        }
        Ok(())
    }
}

// The meters of an arc as text.
#[derive(Drop)]
struct ArcText<C> {
    meters: ArcReading<C>,
}

impl<C: Sent> fmt::Display for ArcText<C> {
    ghost output = { λ a. Some (arc_text C.sending a.meters) };

    fn fmt<W: fmt::Write>(&self, f: &mut fmt::Formatter<W>) -> fmt::Result {
        let opening = charge_word(self.meters.opening);
        let into = charge_word(self.meters.into);
        let out = charge_word(self.meters.out);
        let touched = charge_word(self.meters.touched);
        let now = charge_word(self.meters.now);
        write!(
            f,
            "opening {opening}, in {into}, out {out}, touched {touched}, now {now}"
        )
    }
}

/// A command, and what it is answered: a line, and for the meters a table below it, a row for each site.
///
/// ```text
/// read 2: opening 0, crossed 1, touched 0, now 1
/// arc 2 2: opening 0, in 1, out 0, touched 0, now 1, adds up
/// ```
#[derive(Clone, Copy)]
pub struct ReplyText<'c, 'r, C> {
    /// The command.
    pub command: Command<'c>,
    /// What it is answered.
    pub reply: Reply<'r, C>,
}

impl<C: Sent> fmt::Display for ReplyText<'_, '_, C> {
    ghost output = { λ t. Some (reply_text C.sending (command_meant t.command) t.reply) };

    fn fmt<W: fmt::Write>(&self, f: &mut fmt::Formatter<W>) -> fmt::Result {
        let command = self.command;
        match self.reply {
            Reply::NoRing => writeln!(f, "{command}: no ring is open"),
            Reply::RingOpen => writeln!(f, "{command}: a ring is open"),
            Reply::Done => writeln!(f, "{command}: done"),
            Reply::Refused(fault) => writeln!(f, "{command}: {fault}"),
            Reply::Site(reading) => {
                let reading = ReadingText { reading };
                writeln!(f, "{command}: {reading}")
            }
            Reply::Meters(readings) => {
                let rows = MetersRows { readings };
                write!(
                    f,
                    "{command}:\nsite\topening\tcrossed\ttouched\tnow\n{rows}"
                )
            }
            Reply::Arc { meters, adds_up } => {
                let arc = ArcText { meters };
                let adds = if adds_up {
                    "adds up"
                } else {
                    "does not add up"
                };
                writeln!(f, "{command}: {arc}, {adds}")
            }
            Reply::LongArc => writeln!(f, "{command}: the arc is longer than the ring"),
        }
    }
}

/// A ring as a line: its letters, a digit each, and a space before each of the charges that have crossed into its
/// sites.
#[derive(Clone, Copy)]
pub struct RingRow<'a, C> {
    /// The letters of the ring.
    pub cells: &'a [u8],
    /// What has crossed into each site, or nothing where that is left out.
    pub crossed: &'a [C],
}

impl<C: Sent> fmt::Display for RingRow<'_, C> {
    ghost output = { λ r. Some (ring_row C.sending r.cells.now r.crossed.now) };

    fn fmt<W: fmt::Write>(&self, f: &mut fmt::Formatter<W>) -> fmt::Result {
        let ring = ShownLetters {
            letters: self.cells,
        };
        let words = Crossed {
            charges: self.crossed,
        };
        writeln!(f, "{ring}{words}")
    }
}

// Charges as words, a space before each.
#[derive(Drop)]
struct Crossed<'a, C> {
    charges: &'a [C],
}

impl<C: Sent> fmt::Display for Crossed<'_, C> {
    ghost output = { λ c. Some (spaced (charge_text C.sending) c.charges.now) };

    fn fmt<W: fmt::Write>(&self, f: &mut fmt::Formatter<W>) -> fmt::Result {
        for charge in self.charges {
            let charge = charge_word(*charge);
            write!(f, " {charge}")?;
        }
        Ok(())
    }
}
