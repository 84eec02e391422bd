// The strips that are lent to the judge and the player, and what they hold afterwards.
use crate::kind::Played;
use crate::numbers::to_short;
use crate::show::{write_answer, write_charges, write_letters};
use anyhow::bail;
use fault::Stop;
use player::Answer;
use std::alloc::{AllocError, Global};
use std::io;
use std::io::Write;

#[derive(Drop)]
pub struct CaseStrips<C> {
    pub crossings: Vec<C>,
    pub ring: Vec<u8>,
    pub cells: Vec<u8>,
    pub spare: Vec<u8>,
    pub opening: Vec<C>,
    pub crossed: Vec<C>,
    pub touched: Vec<C>,
    pub answers: Vec<Option<Answer<C>>>,
}

// Letters that differ from one to the next, so that each is seen to stay where it is.
fn marked_letters(alloc: Global, first: u16, room: i64) -> Result<Vec<u8>, AllocError> {
    let mut letters = Vec::new(alloc);
    for mark in first..first.saturating_add(to_short(room)) {
        letters.push((mark % 256) as u8)?;
    }
    Ok(letters)
}

// Charges that differ likewise.
fn marked_charges<C: Played>(alloc: Global, first: u16, room: i64) -> Result<Vec<C>, AllocError> {
    let mut charges = Vec::new(alloc);
    for mark in first..first.saturating_add(to_short(room)) {
        charges.push(C::from_parts(i64::from(mark), mark % 12))?;
    }
    Ok(charges)
}

// Answers that no call gives.
fn marked_answers<C: Played>(
    alloc: Global,
    room: i64,
) -> Result<Vec<Option<Answer<C>>>, AllocError> {
    let mut answers = Vec::new(alloc);
    for place in 0..to_short(room) {
        let fault = Stop::SurplusBytes.at(usize::from(place));
        answers.push(Some(Answer::Refused(fault)))?;
    }
    Ok(answers)
}

impl<C: Played> CaseStrips<C> {
    // Strips of these lengths.
    pub(crate) fn new(alloc: Global, rooms: &[i64]) -> anyhow::Result<CaseStrips<C>> {
        let [
            crossings,
            ring,
            cells,
            spare,
            opening,
            crossed,
            touched,
            answers,
        ] = rooms
        else {
            bail!("there are not eight lengths of strips");
        };
        Ok(CaseStrips {
            crossings: marked_charges(alloc, 400, *crossings)?,
            ring: marked_letters(alloc, 50, *ring)?,
            cells: marked_letters(alloc, 100, *cells)?,
            spare: marked_letters(alloc, 150, *spare)?,
            opening: marked_charges(alloc, 100, *opening)?,
            crossed: marked_charges(alloc, 200, *crossed)?,
            touched: marked_charges(alloc, 300, *touched)?,
            answers: marked_answers(alloc, *answers)?,
        })
    }

    // The strips that the player is lent.
    pub(crate) fn write_played<W: Write>(&self, out: &mut W) -> io::Result<()> {
        write_letters(out, "cells", &self.cells)?;
        write_letters(out, "spare", &self.spare)?;
        write_charges(out, "opening", &self.opening)?;
        write_charges(out, "crossed", &self.crossed)?;
        write_charges(out, "touched", &self.touched)
    }

    // All strips: first the answers, then those of the judge, and those of the player.
    pub(crate) fn write<W: Write>(&self, out: &mut W) -> io::Result<()> {
        for answer in &self.answers {
            write_answer(out, *answer)?;
        }
        write_charges(out, "crossings", &self.crossings)?;
        write_letters(out, "ring", &self.ring)?;
        self.write_played(out)
    }
}
