// The charges that a player writes and books, one a site.
ghost use Rattle.std.specs.Prelude.{◌≡◌, ℕ};
ghost use Rattle.charge.specs.Groups.{Kind};
ghost use Rattle.bench.specs.States.{holding_bench, sites_bench};

use automaton::{Density, Ring, Rule};
use bench::{Holding, SiteCrossings};
use charge::Charge;

// A charge for each site of a ring.
pub(crate) trait SiteCharges<C: Charge> {
    ghost charges: { (K : Kind C) → Self → ℕ → K.group.Carrier };

    fn charge_at(&self, i: usize) -> C
        ensures { C.kind.means result ≡ charges C.kind self.now i };
}

// Zero at every site.
#[derive(Drop)]
pub(crate) struct ZeroCharges;

impl<C: Charge> SiteCharges<C> for ZeroCharges {
    ghost charges = { λ K _ _. K.group.zero };

    fn charge_at(&self, _i: usize) -> C {
        C::zero()
    }
}

// A ring that is played on a bench that holds: each site has its own charge.
#[derive(Drop)]
pub(crate) struct Sites<'b, 'r, C: Charge, R: Rule, D: Density<C>> {
    pub bench: &'b Holding<C, R, D>,
    pub ring: Ring<'r>,
    pub ghost alphabet: { ring.q ≡ (holding_bench bench.now).rule.q },
}

impl<C: Charge, R: Rule, D: Density<C>> SiteCharges<C> for Sites<'_, '_, C, R, D> {
    ghost use Rattle.player.specs.Promises.{charges_at};

    ghost charges = { λ K s. charges_at K s };

    fn charge_at(&self, i: usize) -> C {
        self.ring.site_charge(self.bench.density(), i)
    }
}

// The opposite of each site's charge.
#[derive(Drop)]
pub(crate) struct OppositeCharges<'a, S> {
    pub charges: &'a S,
}

impl<C: Charge, S: SiteCharges<C>> SiteCharges<C> for OppositeCharges<'_, S> {
    ghost charges = { λ K s i. K.group.neg (S.charges K s.charges.now i) };

    fn charge_at(&self, i: usize) -> C {
        self.charges.charge_at(i).opposite()
    }
}

// What crosses into each site of a ring in a step.
#[derive(Drop)]
pub(crate) struct CrossingCharges<'b, 'r, C: Charge, R: Rule, D: Density<C>> {
    pub crossings: SiteCrossings<'b, C, R, D>,
    pub ring: Ring<'r>,
    pub ghost alphabet: { ring.q ≡ (sites_bench crossings).rule.q },
}

impl<C: Charge, R: Rule, D: Density<C>> SiteCharges<C> for CrossingCharges<'_, '_, C, R, D> {
    ghost use Rattle.player.specs.Promises.{crossings_at};

    ghost charges = { λ K s. crossings_at K s };

    fn charge_at(&self, i: usize) -> C {
        self.crossings.at(self.ring, i)
    }
}
