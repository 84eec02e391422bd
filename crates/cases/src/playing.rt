// Rings played on rule 184 under the density that counts ones.
use crate::numbers;
use automaton::{TableDensity, TableRule};
use bench::{Draft, Holding, Verdict};
use charge::Voices;
use fault::{Fault, Stop};
use player::{Answer, Call, Playing, Reading, perform};

type Draft184 = Draft<Voices, TableRule<'static>, TableDensity<'static, Voices>>;

type Holding184 = Holding<Voices, TableRule<'static>, TableDensity<'static, Voices>>;

fn voices(count: i64) -> Voices {
    Voices { count }
}

fn reading(opening: i64, crossed: i64, touched: i64, now: i64) -> Reading<Voices> {
    Reading {
        opening: voices(opening),
        crossed: voices(crossed),
        touched: voices(touched),
        now: voices(now),
    }
}

// A bench of an elementary rule by its table.
fn draft(letters: &'static [u8]) -> Result<Draft184, Fault> {
    let mut rule = TableRule::zero();
    rule.fill(2, 3, 1, letters)?;
    let mut density = TableDensity::zero();
    density.fill(2, 1, &[Voices { count: 0 }, Voices { count: 1 }])?;
    Ok(Draft::new(rule, density)?)
}

fn holding() -> Result<Option<Holding184>, Fault> {
    let mut crossings = [voices(0); 4];
    let mut ring = [0u8; 5];
    match draft(&[0, 0, 0, 1, 1, 1, 0, 1])?.judge(&mut crossings, &mut ring)? {
        Verdict::Holds(bench) => Ok(Some(bench)),
        Verdict::Breaks(_, _) => Ok(None),
    }
}

#[test]
fn rule_184_is_played(rt: HostRuntime) {
    let mut cells = [9u8; 5];
    let mut spare = [8u8; 5];
    let mut opening = [voices(70); 5];
    let mut crossed = [voices(71); 5];
    let mut touched = [voices(72); 5];
    let Ok(Some(bench)) = holding() else {
        panic!(rt; "the bench does not hold")
    };
    let opened = Playing::open(
        bench,
        &[1, 1, 0, 0],
        &mut cells,
        &mut opening,
        &mut crossed,
        &mut touched,
    );
    let Ok(playing) = opened else {
        panic!(rt; "the ring is not opened")
    };
    assert!(rt; playing.step(&mut cells, &mut spare, &mut crossed).is_ok());
    assert_eq!(rt; cells, [1, 0, 1, 0, 9]);
    assert_eq!(rt; spare, [1, 1, 0, 0, 8]);
    let site_1 = playing.read(1, &cells, &mut opening, &mut crossed, &mut touched);
    assert_eq!(rt; site_1, Ok(reading(1, 0, 0, 0)));
    let site_2 = playing.read(2, &cells, &mut opening, &mut crossed, &mut touched);
    assert_eq!(rt; site_2, Ok(reading(0, 1, 0, 1)));
    assert!(rt; playing.touch(1, 1, &mut cells, &mut touched).is_ok());
    let touched_1 = playing.read(1, &cells, &mut opening, &mut crossed, &mut touched);
    assert_eq!(rt; touched_1, Ok(reading(1, 0, 1, 1)));
    let past = playing.read(4, &cells, &mut opening, &mut crossed, &mut touched);
    assert_eq!(rt; past.map_err(numbers), Err((13, 0)));
    let letter = playing.touch(1, 2, &mut cells, &mut touched);
    assert_eq!(rt; letter.map_err(numbers), Err((14, 4)));
    let short = playing.touch(1, 1, &mut cells, &mut touched[..3]);
    assert_eq!(rt; short.map_err(numbers), Err((12, 0)));
    assert_eq!(rt; cells, [1, 1, 1, 0, 9]);
    assert_eq!(rt;
        crossed,
        [voices(0), voices(0), voices(1), voices(0), voices(71)]
    );
    assert_eq!(rt;
        touched,
        [voices(0), voices(1), voices(0), voices(0), voices(72)]
    );
}

// The refusal of a ring of zeros, if it is refused, on strips that are long enough.
fn refusal_of(len: usize) -> Result<Option<(u8, usize)>, Fault> {
    let ring = [0u8; 4097];
    let mut cells = [0u8; 4097];
    let mut opening = [voices(0); 4097];
    let mut crossed = [voices(0); 4097];
    let mut touched = [voices(0); 4097];
    let Some(bench) = holding()? else {
        return Ok(None);
    };
    let opened = Playing::open(
        bench,
        &ring[..len.min(4097)],
        &mut cells,
        &mut opening,
        &mut crossed,
        &mut touched,
    );
    match opened {
        Ok(_) => Ok(None),
        Err(refused) => Ok(Some(numbers(refused.fault))),
    }
}

#[test]
fn rings_have_1_to_4096_cells(rt: HostRuntime) {
    assert_eq!(rt; refusal_of(0), Ok(Some((11, 0))));
    assert_eq!(rt; refusal_of(1), Ok(None));
    assert_eq!(rt; refusal_of(4096), Ok(None));
    assert_eq!(rt; refusal_of(4097), Ok(Some((11, 0))));
}

// Whether a bench of an elementary rule holds, on which a script is performed on one strip of four cells.
fn performed(
    letters: &[u8],
    script: &[Call<'_>],
    cells: &mut [u8],
    answers: &mut [Option<Answer<Voices>>],
) -> Result<bool, Fault> {
    let entries = [voices(0), voices(1)];
    let mut rule = TableRule::zero();
    rule.fill(2, 3, 1, letters)?;
    let mut density = TableDensity::zero();
    density.fill(2, 1, &entries)?;
    let draft = Draft::new(rule, density)?;
    let mut crossings = [voices(0); 4];
    let mut ring = [0u8; 5];
    let mut spare = [0u8; 4];
    let mut opening = [voices(0); 4];
    let mut crossed = [voices(0); 4];
    let mut touched = [voices(0); 4];
    match perform(
        draft,
        script,
        &mut crossings,
        &mut ring,
        cells,
        &mut spare,
        &mut opening,
        &mut crossed,
        &mut touched,
        answers,
    ) {
        Ok(Verdict::Holds(_)) => Ok(true),
        Ok(Verdict::Breaks(_, _)) => Ok(false),
        Err(refused) => Err(refused.fault),
    }
}

#[test]
fn a_script_is_performed(rt: HostRuntime) {
    let mut cells = [0u8; 4];
    let mut answers = [None; 7];
    let script = [
        Call::Step,
        Call::Open(&[1, 1, 0, 0]),
        Call::Step,
        Call::Read { site: 2 },
        Call::Touch { site: 4, letter: 0 },
        Call::Close,
        Call::Read { site: 2 },
    ];
    let held = performed(&[0, 0, 0, 1, 1, 1, 0, 1], &script, &mut cells, &mut answers);
    assert_eq!(rt; held, Ok(true));
    assert_eq!(rt; cells, [1, 0, 1, 0]);
    let done = Some(Answer::Done);
    let read = Some(Answer::Reading(reading(0, 1, 0, 1)));
    let off_ring = Some(Answer::Refused(Stop::BadPosition.at(0)));
    assert_eq!(rt; answers, [None, done, done, read, off_ring, done, None]);
}

#[test]
fn a_bench_that_breaks_is_not_played(rt: HostRuntime) {
    let mut cells = [7u8; 4];
    let mut answers = [Some(Answer::Done); 1];
    let held = performed(
        &[0, 1, 0, 1, 1, 0, 1, 0],
        &[Call::Open(&[1])],
        &mut cells,
        &mut answers,
    );
    assert_eq!(rt; held, Ok(false));
    assert_eq!(rt; cells, [7; 4]);
    assert_eq!(rt; answers, [Some(Answer::Done)]);
}

#[test]
fn answers_need_room(rt: HostRuntime) {
    let mut cells = [7u8; 4];
    let mut answers = [Some(Answer::Done); 1];
    let held = performed(
        &[0, 0, 0, 1, 1, 1, 0, 1],
        &[Call::Open(&[1]), Call::Step],
        &mut cells,
        &mut answers,
    );
    assert_eq!(rt; held.map_err(numbers), Err((12, 0)));
    assert_eq!(rt; cells, [7; 4]);
    assert_eq!(rt; answers, [Some(Answer::Done)]);
}
