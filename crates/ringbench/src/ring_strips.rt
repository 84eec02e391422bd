// A player's strips.
use automaton::{TableDensity, TableRule};
use charge::Charge;
use fault::limits::MOST_CELLS;
use player::{Answer, Call, Player, PlayerOf, Reading, obey};
use std::alloc::{AllocError, Global};

// A player of a preset's bench.
pub(crate) type PresetPlayer<'a, C> = PlayerOf<C, TableRule<'a>, TableDensity<'a, C>>;

// The strips that rings of up to so many cells are played on.
#[derive(Drop)]
pub(crate) struct RingStrips<C> {
    pub cells: Vec<u8>,
    spare: Vec<u8>,
    opening: Vec<C>,
    pub crossed: Vec<C>,
    touched: Vec<C>,
}

impl<C: Charge> RingStrips<C> {
    pub(crate) fn new(alloc: Global) -> Result<RingStrips<C>, AllocError> {
        Ok(RingStrips {
            cells: vec![in alloc; 0u8; MOST_CELLS]?,
            spare: vec![in alloc; 0u8; MOST_CELLS]?,
            opening: vec![in alloc; C::zero(); MOST_CELLS]?,
            crossed: vec![in alloc; C::zero(); MOST_CELLS]?,
            touched: vec![in alloc; C::zero(); MOST_CELLS]?,
        })
    }

    // Answers a call.
    pub(crate) fn obey<'a>(
        &mut self,
        player: PresetPlayer<'a, C>,
        call: Call<'_>,
    ) -> (PresetPlayer<'a, C>, Option<Answer<C>>) {
        obey(
            player,
            call,
            &mut self.cells,
            &mut self.spare,
            &mut self.opening,
            &mut self.crossed,
            &mut self.touched,
        )
    }

    // Answers some steps: as one step where they are done, as the first that is refused, and as any where no ring is
    // open.
    pub(crate) fn step<'a>(
        &mut self,
        player: PresetPlayer<'a, C>,
        count: usize,
    ) -> (PresetPlayer<'a, C>, Option<Answer<C>>) {
        let mut player = player;
        let mut answer = match &player {
            Player::Idle(_) => None,
            Player::Playing(_) => Some(Answer::Done),
        };
        for _ in 0..count {
            if !matches!(answer, Some(Answer::Done)) {
                break;
            }
            let (next, next_answer) = self.obey(player, Call::Step);
            player = next;
            answer = next_answer;
        }
        (player, answer)
    }

    // Reads every site of the ring that is open: a site past its last is refused, and where none is open there is no
    // answer.
    pub(crate) fn read_all<'a>(
        &mut self,
        player: PresetPlayer<'a, C>,
        readings: &mut Vec<Reading<C>>,
    ) -> Result<PresetPlayer<'a, C>, AllocError> {
        let mut player = player;
        readings.clear();
        for site in 0..MOST_CELLS {
            let (next, answer) = self.obey(player, Call::Read { site });
            player = next;
            let Some(Answer::Reading(reading)) = answer else {
                break;
            };
            readings.push(reading)?;
        }
        Ok(player)
    }
}
