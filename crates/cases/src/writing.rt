// Presets written.
use crate::numbers;
use preset::{Entry, Header, write_preset};

const RULE_184: [u8; 8] = [0, 0, 0, 1, 1, 1, 0, 1];

const WEIGHTS: [Entry; 2] = [
    Entry {
        signed: 0,
        plain: 0,
    },
    Entry {
        signed: 1,
        plain: 0,
    },
];

const VOICES: Header = Header {
    kind: 0,
    q: 2,
    n: 3,
    l: 1,
    k: 1,
};

fn entry(signed: i64, plain: u64) -> Entry {
    Entry { signed, plain }
}

// How many bytes were written, or the code and the place of the refusal.
fn written(
    header: Header,
    letters: &[u8],
    entries: &[Entry],
    out: &mut [u8],
) -> Result<usize, (u8, usize)> {
    write_preset(header, letters, entries, out).map_err(numbers)
}

#[test]
fn rule_184(rt: HostRuntime) {
    let mut out = [9u8; 16];
    assert_eq!(rt; written(VOICES, &RULE_184, &WEIGHTS, &mut out), Ok(15));
    assert_eq!(rt; out, [0, 2, 3, 1, 1, 0, 0, 0, 1, 1, 1, 0, 1, 0, 2, 9]);
}

// Entries of two and of five bytes: they are sent as 300 and as the largest number.
#[test]
fn groups_of_seven_bits(rt: HostRuntime) {
    let entries = [entry(150, 0), entry(-2_147_483_648, 0)];
    let mut out = [9u8; 21];
    assert_eq!(rt;
        written(VOICES, &RULE_184, &entries, &mut out[0..19]),
        Err((12, 0))
    );
    assert_eq!(rt; out, [9; 21]);
    assert_eq!(rt; written(VOICES, &RULE_184, &entries, &mut out), Ok(20));
    assert_eq!(rt;
        out,
        [
            0, 2, 3, 1, 1, 0, 0, 0, 1, 1, 1, 0, 1, 0x82, 0x2c, 0x8f, 0xff, 0xff, 0xff, 0x7f, 9
        ]
    );
}

fn header(kind: u64, q: u64, n: u64, l: u64, k: u64) -> Header {
    Header { kind, q, n, l, k }
}

#[test]
fn header_refusals(rt: HostRuntime) {
    let mut out = [9u8; 16];
    let refused = [
        (header(5, 9, 3, 1, 1), 3),
        (header(0, 9, 13, 1, 1), 4),
        (header(0, 2, 13, 13, 1), 5),
        (header(0, 2, 3, 3, 13), 6),
        (header(0, 2, 3, 1, 13), 7),
        (header(0, 8, 4, 1, 2), 9),
    ];
    for (header, code) in refused {
        assert_eq!(rt;
            written(header, &RULE_184, &WEIGHTS, &mut out),
            Err((code, 0))
        );
    }
    assert_eq!(rt; out, [9; 16]);
}

#[test]
fn strip_refusals(rt: HostRuntime) {
    let mut out = [9u8; 14];
    assert_eq!(rt;
        written(VOICES, &RULE_184[0..7], &WEIGHTS, &mut out),
        Err((12, 0))
    );
    assert_eq!(rt;
        written(VOICES, &RULE_184, &WEIGHTS[0..1], &mut out),
        Err((12, 0))
    );
    assert_eq!(rt;
        written(VOICES, &[0, 0, 2, 1, 1, 1, 0, 3], &WEIGHTS, &mut out),
        Err((14, 2))
    );
    let heavy = [entry(0, 0), entry(2_147_483_648, 0)];
    assert_eq!(rt; written(VOICES, &RULE_184, &heavy, &mut out), Err((15, 1)));
    let mixed = [entry(0, 1), entry(0, 0)];
    assert_eq!(rt; written(VOICES, &RULE_184, &mixed, &mut out), Err((15, 0)));
    assert_eq!(rt;
        written(VOICES, &RULE_184, &WEIGHTS, &mut out),
        Err((12, 0))
    );
    assert_eq!(rt; out, [9; 14]);
}
