// Opening a ring on a bench that holds.
ghost use Rattle.std.specs.Prelude.{◌≡◌, ◌≤◌, length, Ok, Err, MatchResult};
ghost use Rattle.fault.specs.Answers.{at_front};
ghost use Rattle.fault.specs.Refusals.{refusal};
ghost use Rattle.automaton.specs.Words.{table};
ghost use Rattle.criterion.specs.ChargeStrips.{FrontMeans};
ghost use Rattle.player.specs.Calls.PlayerCall.{opens};
ghost use Rattle.bench.specs.States.{holding_bench};
ghost use Rattle.player.specs.Answers.{open_said, Stays};
ghost use Rattle.player.specs.Logs.{LogsTrueOn};
ghost use Rattle.player.specs.Promises.{ring_on, ring_len, holding_under, sites_ring, site_charges, meter_strips, tested_by, DoesOn};

use crate::ledger::fill;
use crate::playing::Playing;
use crate::sites::{Sites, ZeroCharges};
use automaton::{Density, Ring, Rule};
use bench::{Holding, Refused};
use charge::Charge;
use fault::Fault;

// The ring that open is given, or the refusal by the strips that it is handed.
fn check_open<'r, C: Charge, R: Rule, D: Density<C>>(
    bench: &Holding<C, R, D>,
    ring: &'r [u8],
    cells: &[u8],
    opening: &[C],
    crossed: &[C],
    touched: &[C],
) -> Result<Ring<'r>, Fault>
    ensures { let on = ring_on bench.now (length ring.now) in
        let tested = tested_by on (opens ring.now)
        (meter_strips cells.now opening.now crossed.now touched.now) in
        MatchResult result
        (λ r. (tested ≡ Ok tt) × (r.cells.now ≡ ring.now) × (r.q ≡ on.bench.rule.q))
        (λ f. tested ≡ Err (refusal f)) }
{
    let room = cells
        .len()
        .min(opening.len())
        .min(crossed.len())
        .min(touched.len());
    Ring::under(bench.rule(), room, ring)
}

// Copies a ring to the cells, and opens the meters of its sites.
fn open_on<C: Charge, R: Rule, D: Density<C>>(
    sites: &Sites<'_, '_, C, R, D>,
    cells: &mut [u8],
    opening: &mut [C],
    crossed: &mut [C],
    touched: &mut [C],
)
    requires room { let n = length sites.now.ring.cells.now in
        (n ≤ length cells.old) × (n ≤ length opening.old) × (n ≤ length crossed.old)
        × (n ≤ length touched.old) }
    ensures cells { cells.new ≡ at_front sites.now.ring.cells.now cells.old }
    ensures opening { let ring = sites_ring sites.now in
        let all = table ring.len (site_charges ring.bench sites.now.ring.cells.now) in
        FrontMeans C.kind all opening.old opening.new }
    ensures crossed { FrontMeans C.kind (table (length sites.now.ring.cells.now)
        (λ _. C.kind.group.zero)) crossed.old crossed.new }
    ensures touched { FrontMeans C.kind (table (length sites.now.ring.cells.now)
        (λ _. C.kind.group.zero)) touched.old touched.new }
{
    let ring = sites.ring.cells;
    cells[..ring.len()].copy_from_slice(ring);
    fill(ring.len(), opening, sites);
    fill(ring.len(), crossed, &ZeroCharges);
    fill(ring.len(), touched, &ZeroCharges);
}

impl<C: Charge, R: Rule, D: Density<C>> Playing<C, R, D> {
    /// Opens a ring of L letters, one a cell: copies it to the cells, writes each site's charge to opening, and sets
    /// crossed and touched to zero at each site. The bench holds, so each line of every log of it without gaps is true.
    ///
    /// The bench comes back, refused by the first that fits: `Stop::BadLength` where L is 0 or above
    /// `fault::MOST_CELLS`, `Stop::ShortStrip` where a strip has fewer than L entries, both at place 0, and
    /// `Stop::BadLetter` at the first letter that is not below the alphabet size.
    pub fn open(
        bench: Holding<C, R, D>,
        ring: &[u8],
        cells: &mut [u8],
        opening: &mut [C],
        crossed: &mut [C],
        touched: &mut [C],
    ) -> Result<Playing<C, R, D>, Refused<Holding<C, R, D>>>
        ensures promise { DoesOn (ring_on bench (length ring.now)) (opens ring.now)
            (meter_strips cells.old opening.old crossed.old touched.old) (open_said C.kind result)
            (meter_strips cells.new opening.new crossed.new touched.new) }
        ensures past { Stays result (length ring.now) opening.old opening.new
            × Stays result (length ring.now) crossed.old crossed.new
            × Stays result (length ring.now) touched.old touched.new }
        ensures bench { MatchResult result
            (λ p. (holding_under p ≡ bench) × (ring_len p ≡ length ring.now))
            (λ e. e.state ≡ bench) }
        ensures logs { LogsTrueOn (holding_bench bench) }
    {
        match check_open(&bench, ring, cells, opening, crossed, touched) {
            Ok(ring) => {
                let len = ring.cells.len();
                let sites = Sites {
                    bench: &bench,
                    ring,
                };
                open_on(&sites, cells, opening, crossed, touched);
                Ok(Playing { bench, len })
            }
            Err(fault) => Err(Refused {
                state: bench,
                fault,
            }),
        }
    }
}
