// A rule and a density of more words than any bench has: both traits take them, and every bench refuses them.
ghost use Rattle.std.specs.Prelude.{◌≡◌, ◌^◌};
ghost use Rattle.automaton.specs.Meanings.{DensityLimits};
ghost use Rattle.cases.specs.Wide.{last_letter, last_letter-lawful, last_weight, last_weighed};

use crate::numbers;
use automaton::{Density, Rule, next_ring, total};
use bench::{Draft, compare};
use charge::{Channels, Charge};

// The words of m letters below q, however many there are. The rule answers with a word's last letter, and the density
// weighs it.
#[derive(Clone, Copy)]
struct Last {
    q: usize,
    m: usize,
    count: usize,
    ghost sizes: { DensityLimits q m },
    ghost counted: { count ≡ q ^ m },
}

impl Rule for Last {
    ghost meaning = { λ t. last_letter t.q t.m };

    ghost lawful = { λ t. last_letter-lawful t.q t.m t.sizes };

    fn q(&self) -> usize {
        self.q
    }

    fn n(&self) -> usize {
        self.m
    }

    fn l(&self) -> usize {
        0
    }

    fn answer(&self, code: usize) -> u8 {
        if code < self.count {
            (code % self.q) as u8
        } else {
            0
        }
    }
}

impl Density<Channels> for Last {
    ghost weights = { λ K t. last_weight K t.q t.m };

    ghost lawful = { λ K t. last_weighed K t.q t.m t.sizes };

    fn q(&self) -> usize {
        self.q
    }

    fn k(&self) -> usize {
        self.m
    }

    fn charge(&self, code: usize) -> Channels {
        if code < self.count {
            Channels {
                bits: (code % self.q) as u16,
            }
        } else {
            Channels::zero()
        }
    }
}

// All words of twelve letters below 8.
fn widest() -> Last {
    Last {
        q: 8,
        m: 12,
        count: 68_719_476_736,
    }
}

// The words of one letter below 8.
fn narrowest() -> Last {
    Last {
        q: 8,
        m: 1,
        count: 8,
    }
}

#[test]
fn a_bench_of_too_many_words(rt: HostRuntime) {
    assert_eq!(rt;
        Draft::<Channels, Last, Last>::new(widest(), narrowest())
            .map(|_| ())
            .map_err(|refused| numbers(refused.fault)),
        Err((9, 0))
    );
}

#[test]
fn a_comparison_of_too_many_words(rt: HostRuntime) {
    let mut crossings = [Channels { bits: 77 }; 1];
    let mut ring = [9u8; 1];
    assert_eq!(rt;
        compare(&narrowest(), &widest(), &mut crossings, &mut ring).map_err(numbers),
        Err((9, 0))
    );
    assert_eq!(rt; ring, [9]);
}

// Past the limit of a bench, rings still have their next rings and their totals.
#[test]
fn a_ring_under_the_widest(rt: HostRuntime) {
    let mut strip = [9u8; 4];
    assert_eq!(rt;
        next_ring(&widest(), &[1, 2, 7], &mut strip).map_err(numbers),
        Ok(())
    );
    assert_eq!(rt; strip, [7, 1, 2, 9]);
    assert_eq!(rt;
        total(&widest(), &[1, 2, 7]).map_err(numbers),
        Ok(Channels { bits: 4 })
    );
}
