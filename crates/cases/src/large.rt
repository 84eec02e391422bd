// Presets of the largest sizes, shown, encoded, judged and compared, and their crossings told. The contracts of those
// calls let each answer that there is not enough memory: here each has enough.
use console::{encode_page, show_preset};
use preset::{Entry, Header, write_preset};
use report::{ReportLine, compare_line, crossings_page, judge_line};
use std::alloc::Global;
use std::test::Fail;

const NONE: Entry = Entry {
    signed: 0,
    plain: 0,
};

// A kind of charge, what the letter 1 weighs, the row of crossings at the word of zeros, and the rows at the word of ones
// where each cell takes the letter of the eleventh cell to its right and where it keeps its own.
#[derive(Clone, Copy)]
struct Kind {
    kind: u64,
    one: Entry,
    zeros: &'static str,
    taken: &'static str,
    kept: &'static str,
}

const KINDS: [Kind; 2] = [
    Kind {
        kind: 0,
        one: Entry {
            signed: 150,
            plain: 0,
        },
        zeros: "00000000000\t0\n",
        taken: "\n11111111111\t-1650\n",
        kept: "\n11111111111\t0\n",
    },
    Kind {
        kind: 3,
        one: Entry {
            signed: 1,
            plain: 7,
        },
        zeros: "00000000000\t0:0\n",
        taken: "\n11111111111\t-11:7\n",
        kept: "\n11111111111\t0:0\n",
    },
];

// The bytes of a preset over two letters, whose rule answers the last letter of its window, and whose density weighs
// the last letter of its words.
fn last_letters(alloc: Global, kind: Kind, n: u64, k: u64) -> Result<Vec<u8>, Fail> {
    let header = Header {
        kind: kind.kind,
        q: 2,
        n,
        l: 0,
        k,
    };
    let letters = [0, 1].repeat(alloc, 2048)?;
    let entries = [NONE, kind.one].repeat(alloc, 2048)?;
    let mut bytes = vec![in alloc; 0u8; 16384]?;
    let count = write_preset(header, &letters, &entries, &mut bytes)?;
    bytes.truncate(count);
    Ok(bytes)
}

// Whether what is shown of a preset is encoded as its bytes again, and then its verdict and its crossings.
fn answers(alloc: Global, bytes: &[u8]) -> Result<(bool, ReportLine, ReportLine), Fail> {
    let page = show_preset(alloc, bytes)?;
    let again = encode_page(alloc, page.as_bytes())?;
    let verdict = judge_line(alloc, "A", bytes)?;
    let crossings = crossings_page(alloc, bytes)?;
    Ok((again.as_slice() == bytes, verdict, crossings))
}

#[test]
fn memory_suffices(rt: HostRuntime) -> Result<(), Fail> {
    let alloc = rt.alloc();
    for kind in KINDS {
        let long = last_letters(alloc, kind, 12, 1)?;
        let wide = last_letters(alloc, kind, 1, 12)?;
        for (bytes, ones) in [(&long, kind.taken), (&wide, kind.kept)] {
            let (again, verdict, crossings) = answers(alloc, bytes)?;
            assert!(rt; again && verdict.good && crossings.good);
            assert_eq!(rt; verdict.text.as_str(), "A\tholds");
            assert_eq!(rt; crossings.text.lines().count(), 2048);
            assert!(rt; crossings.text.starts_with(kind.zeros));
            assert!(rt; crossings.text.ends_with(ones), "not {ones}");
        }
        let line = compare_line(alloc, "A", &long, "B", &wide)?;
        assert!(rt; line.good);
        assert_eq!(rt; line.text.as_str(), "A\tB\tagree");
    }
    Ok(())
}
