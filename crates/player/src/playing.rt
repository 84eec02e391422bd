// The state of a bench that a ring is played on.
ghost use Rattle.std.specs.Prelude.{◌≤◌};
ghost use Rattle.fault.specs.Limits.{most_cells};

use automaton::{Density, Rule};
use bench::Holding;
use charge::Charge;

/// A bench that holds, with a ring open on it. The ring and its meters stand on strips of the caller's, which are lent
/// to each call; a ring has 1 cell at least and `fault::MOST_CELLS` at most.
///
/// ```rust
/// let playing = Playing::open(bench, &[1, 1, 0, 0], &mut cells, &mut opening, &mut crossed, &mut touched)?;
/// playing.step(&mut cells, &mut spare, &mut crossed)?;
/// let reading = playing.read(2, &cells, &mut opening, &mut crossed, &mut touched)?;
/// let bench = playing.close();
/// ```
#[derive(Drop)]
pub struct Playing<C: Charge, R: Rule, D: Density<C>> {
    pub(crate) bench: Holding<C, R, D>,
    pub(crate) len: usize,
    ghost some: { 1 ≤ len },
    ghost most: { len ≤ most_cells },
}
