// Ledgers: what a ring's strips of charges are read and written by.
ghost use Rattle.std.specs.Prelude.{◌≡◌, ◌+◌, ◌<◌, ◌≤◌, map, length, take, drop, slice_set, slice_index_or};
ghost use Rattle.automaton.specs.Words.{table};
ghost use Rattle.criterion.specs.ChargeStrips.{FrontMeans};
ghost use Rattle.player.specs.Near.{back, up_to};
ghost use Rattle.player.specs.Promises.{Books};

use crate::sites::SiteCharges;
use charge::Charge;

/// A site ledger: one charge a site, over a strip that is lent for writing. Its questions take it for writing too.
#[derive(Drop)]
pub struct Ledger<'a, C> {
    sites: &'a mut [C],
}

impl<'a, C: Charge> Ledger<'a, C> {
    ghost use Rattle.player.specs.Promises.{ledger_charges, IsOver, SameStrip};

    /// The ledger of as many sites as the strip has charges. Nothing is written.
    pub fn new(sites: &'a mut [C]) -> Ledger<'a, C>
        ensures sites { ledger_charges result ≡ sites.old }
        ensures same { IsOver sites.entry result }
    {
        Ledger { sites }
    }

    /// How many sites there are.
    pub fn len(&mut self) -> usize
        ensures answer { result ≡ length (ledger_charges self.old) }
        ensures kept { self.new ≡ self.old }
    {
        self.sites.len()
    }

    /// The charge of site i, counted from 0, and zero past the last site.
    pub fn at(&mut self, i: usize) -> C
        ensures answer { let old = map C.kind.means (ledger_charges self.old) in
            C.kind.means result ≡ slice_index_or old i C.kind.group.zero }
        ensures kept { self.new ≡ self.old }
    {
        if i < self.sites.len() {
            self.sites[i]
        } else {
            C::zero()
        }
    }

    /// Writes the charge of site i. Past the last site nothing is written.
    pub fn put(&mut self, i: usize, charge: C)
        ensures sites { ledger_charges self.new ≡ slice_set (ledger_charges self.old) i charge }
        ensures same { SameStrip self.old self.new }
    {
        if i >= self.sites.len() {
            return;
        }
        self.sites[i] = charge;
    }

    // The charge of site i and another.
    fn sum_at(&mut self, i: usize, charge: C) -> C
        ensures answer { let old = map C.kind.means (ledger_charges self.old) in
            let own = slice_index_or old i C.kind.group.zero in
            C.kind.means result ≡ C.kind.group.add own (C.kind.means charge) }
        ensures kept { self.new ≡ self.old }
    {
        self.at(i).plus(charge)
    }

    /// Adds to the charge of site i. Past the last site nothing is written.
    pub fn add(&mut self, i: usize, charge: C)
        ensures sites { let old = map C.kind.means (ledger_charges self.old) in
            let own = slice_index_or old i C.kind.group.zero in
            map C.kind.means (ledger_charges self.new)
            ≡ slice_set old i (C.kind.group.add own (C.kind.means charge)) }
        ensures others { (take i (ledger_charges self.new) ≡ take i (ledger_charges self.old))
            × (drop (i + 1) (ledger_charges self.new)
            ≡ drop (i + 1) (ledger_charges self.old)) }
        ensures same { SameStrip self.old self.new }
    {
        let sum = self.sum_at(i, charge);
        self.put(i, sum);
    }
}

// The site that stands t sites before site i of a ring.
fn site_before(len: usize, i: usize, t: usize) -> usize
    requires { (i < len) × (t < len) }
    ensures within { result < len }
    ensures back { back len i result ≡ t }
{
    if t <= i { i - t } else { len - (t - i) }
}

// The charge of site i, and zero past the last site.
pub(crate) fn read_strip<C: Charge>(strip: &mut [C], i: usize) -> C
    ensures answer { C.kind.means result
        ≡ slice_index_or (map C.kind.means strip.old) i C.kind.group.zero }
    ensures kept { strip.new ≡ strip.old }
{
    Ledger::new(strip).at(i)
}

// Writes the charges of the first `len` sites.
pub(crate) fn fill<C: Charge, S: SiteCharges<C>>(len: usize, strip: &mut [C], charges: &S)
    requires { len ≤ length strip.old }
    ensures { FrontMeans C.kind (table len (S.charges C.kind charges.now)) strip.old strip.new }
{
    let mut ledger = Ledger::new(strip);
    for i in 0..len {
        ledger.put(i, charges.charge_at(i));
    }
}

// Adds to the charges of the `count` sites up to site i, going round, of a ring of the first `len` sites.
pub(crate) fn book_up_to<C: Charge, S: SiteCharges<C>>(
    len: usize,
    strip: &mut [C],
    i: usize,
    count: usize,
    charges: &S,
)
    requires { (len ≤ length strip.old) × (i < len) × (count ≤ len) }
    ensures { let near = up_to C.kind.group len i count (S.charges C.kind charges.now) in
        Books C.kind len near strip.old strip.new }
{
    let mut ledger = Ledger::new(strip);
    for t in 0..count {
        let site = site_before(len, i, t);
        ledger.add(site, charges.charge_at(site));
    }
}

// Adds to the charges of the first `len` sites.
pub(crate) fn book<C: Charge, S: SiteCharges<C>>(len: usize, strip: &mut [C], charges: &S)
    requires { len ≤ length strip.old }
    ensures { Books C.kind len (S.charges C.kind charges.now) strip.old strip.new }
{
    let mut ledger = Ledger::new(strip);
    for i in 0..len {
        ledger.add(i, charges.charge_at(i));
    }
}
