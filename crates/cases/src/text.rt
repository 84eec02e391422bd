// Examples: rule 184 and a density of kind both, with their pages, and pages that are wrong.
use charge::ChargeKind;
use console::{Expected, PagePart, TextError, line_of_refusal, page, parse};
use fault::Stop;
use preset::{Entry, Header};
use std::test::Fail;

const RULE: [u8; 8] = [0, 0, 0, 1, 1, 1, 0, 1];

const HEADER: Header = Header {
    kind: 0,
    q: 2,
    n: 3,
    l: 1,
    k: 1,
};

const DENSITY: [Entry; 2] = [
    Entry {
        signed: 0,
        plain: 0,
    },
    Entry {
        signed: 1,
        plain: 0,
    },
];

// Entries of kind both: 3:11 and -4:0.
const CHORDS: [Entry; 2] = [
    Entry {
        signed: 3,
        plain: 11,
    },
    Entry {
        signed: -4,
        plain: 0,
    },
];

const PAGE: &str =
    "kind voices\nletters 2\nwindow 3\nreach 1\nwidth 1\nrule 0 0 0 1 1 1 0 1\ndensity 0 1\nbytes 15\n";

const LOOSE: &[u8] =
    b"\r\n  kind\tboth \r\nletters 2\nwindow 1\nreach 0\n\n\nwidth 1\nrule 0 01\ndensity 3:11 -4:0";

#[test]
fn rule_184_is_written(rt: HostRuntime) -> Result<(), Fail> {
    let text = page(rt.alloc(), ChargeKind::Voices, HEADER, &RULE, &DENSITY, 15)?;
    assert_eq!(rt; text.as_str(), PAGE);
    Ok(())
}

#[test]
fn rule_184_is_read(rt: HostRuntime) -> Result<(), Fail> {
    let draft = parse(rt.alloc(), PAGE.as_bytes())?;
    assert_eq!(rt; draft.kind, ChargeKind::Voices);
    assert_eq!(rt; draft.header, HEADER);
    assert_eq!(rt; draft.letters.as_slice(), &RULE[..]);
    assert_eq!(rt; draft.entries.as_slice(), &DENSITY[..]);
    Ok(())
}

#[test]
fn loose_lines_are_read(rt: HostRuntime) -> Result<(), Fail> {
    let draft = parse(rt.alloc(), LOOSE)?;
    assert_eq!(rt; draft.kind, ChargeKind::Both);
    assert_eq!(rt; draft.letters.as_slice(), &[0, 1][..]);
    assert_eq!(rt; draft.entries.as_slice(), &CHORDS[..]);
    assert_eq!(rt; draft.lines.width, 8);
    assert_eq!(rt; line_of_refusal(draft.lines, Stop::TooManyWords), Some(8));
    Ok(())
}

#[test]
fn entries_of_kind_both_are_written(rt: HostRuntime) -> Result<(), Fail> {
    let text = page(rt.alloc(), ChargeKind::Both, HEADER, &[1], &CHORDS, 9)?;
    let end = "rule 1\ndensity 3:11 -4:0\nbytes 9\n";
    assert!(rt; text.as_str().ends_with(end));
    Ok(())
}

#[test]
fn wrong_lines_are_named(rt: HostRuntime) -> Result<(), Fail> {
    let alloc = rt.alloc();
    let error = TextError::Wrong {
        line: 3,
        expected: Expected::Number,
    };
    assert_eq!(rt;
        parse(alloc, b"kind voices\nletters 2\nwindow x\n"),
        Err(error)
    );
    assert_eq!(rt;
        error.to_string(alloc)?.as_str(),
        "Line 3: expected a number."
    );
    assert_eq!(rt;
        parse(alloc, b"kind pitch\n"),
        Err(TextError::Ended {
            due: PagePart::Letters
        })
    );
    Ok(())
}
