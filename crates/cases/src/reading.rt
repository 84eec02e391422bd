// Presets read.
use crate::numbers;
use fault::Stop;
use preset::{Entry, Header, STRIP, read_preset, read_whole};
use std::test::Fail;

const NONE: Entry = Entry {
    signed: 7,
    plain: 7,
};

// The code and the place of the refusal, if the preset is refused.
fn refused(input: &[u8]) -> Option<(u8, usize)> {
    let mut letters = [0u8; STRIP];
    let mut entries = [NONE; STRIP];
    read_whole(input, &mut letters, &mut entries)
        .err()
        .map(numbers)
}

#[test]
fn rule_184(rt: HostRuntime) -> Result<(), Fail> {
    let input = [
        0x00, 0x02, 0x03, 0x01, 0x01, 0, 0, 0, 1, 1, 1, 0, 1, 0x00, 0x02,
    ];
    let mut letters = [7u8; STRIP];
    let mut entries = [NONE; STRIP];
    let header = read_whole(&input, &mut letters, &mut entries)?;
    assert_eq!(rt;
        header,
        Header {
            kind: 0,
            q: 2,
            n: 3,
            l: 1,
            k: 1,
        }
    );
    assert_eq!(rt; header.letter_count(), Some(8));
    assert_eq!(rt; header.entry_count(), Some(2));
    assert_eq!(rt; &letters[0..9], [0, 0, 0, 1, 1, 1, 0, 1, 7].as_slice());
    assert_eq!(rt;
        entries[1],
        Entry {
            signed: 1,
            plain: 0,
        }
    );
    assert_eq!(rt; entries[2], NONE);
    Ok(())
}

#[test]
fn the_rest_is_handed_on(rt: HostRuntime) -> Result<(), Fail> {
    let input = [0x03, 2, 1, 0, 1, 1, 0, 5, 11, 0, 0, 0x80, 0x80];
    let mut letters = [7u8; STRIP];
    let mut entries = [NONE; STRIP];
    let (header, rest) = read_preset(&input, &mut letters, &mut entries)?;
    assert_eq!(rt; header.kind, 3);
    assert_eq!(rt; rest, [0x80, 0x80].as_slice());
    assert_eq!(rt;
        entries[0],
        Entry {
            signed: -3,
            plain: 11,
        }
    );
    Ok(())
}

#[test]
fn header_refusals(rt: HostRuntime) {
    assert_eq!(rt; refused(&[0, 2, 0x81]), Some((1, 2)));
    assert_eq!(rt; refused(&[0, 2]), Some((1, 2)));
    assert_eq!(rt; refused(&[0, 2, 3, 0x80]), Some((2, 3)));
    assert_eq!(rt; refused(&[5, 2, 3]), Some((3, 0)));
    assert_eq!(rt; refused(&[0, 9]), Some((4, 1)));
    assert_eq!(rt; refused(&[0, 2, 13]), Some((5, 2)));
    assert_eq!(rt; refused(&[0, 2, 3, 3]), Some((6, 3)));
    assert_eq!(rt; refused(&[0, 2, 3, 1, 13]), Some((7, 4)));
    assert_eq!(rt; refused(&[0, 8, 4, 1, 2]), Some((9, 4)));
}

#[test]
fn body_refusals(rt: HostRuntime) {
    assert_eq!(rt; refused(&[0, 2, 1, 0, 1, 0, 1, 0, 2]), None);
    assert_eq!(rt; refused(&[0, 2, 1, 0, 1, 0, 1, 0, 2, 0x80]), Some((10, 9)));
    assert_eq!(rt; refused(&[0, 2, 1, 0, 1, 0, 2, 0, 2]), Some((14, 6)));
    assert_eq!(rt; refused(&[1, 2, 1, 0, 1, 0, 1, 0, 12]), Some((15, 8)));
    assert_eq!(rt;
        refused(&[2, 2, 1, 0, 1, 0, 1, 0x84, 0x80, 0x00, 0]),
        Some((15, 7))
    );
    assert_eq!(rt;
        refused(&[3, 2, 1, 0, 1, 0, 1, 0, 0, 0, 12]),
        Some((15, 10))
    );
}

#[test]
fn short_strips(rt: HostRuntime) {
    let mut letters = [7u8; 4095];
    let mut entries = [NONE; STRIP];
    let answer = read_whole(&[0x80], &mut letters, &mut entries);
    assert_eq!(rt; answer, Err(Stop::ShortStrip.at(0)));
    assert_eq!(rt; Stop::ShortStrip.code(), 12);
}
