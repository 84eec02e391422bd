// Reads presets in hexadecimal, a line each, and says how each one is read. The input and the expected output
// are made by tools/make_preset_cases.py, which reads presets by code of its own.
#![tactic(auto)]

ghost use Rattle.std.specs.Prelude.{◌<◌};

use automaton::ShownLetters;
use fault::Fault;
use preset::{Entry, Header, STRIP, read_preset, read_whole, write_preset};
use std::alloc::{AllocError, Global};
use std::io;
use std::io::{BufRead, BufReader, BufWriter, Write};

// The strips that every preset is read into.
#[derive(Drop)]
struct InputStrips {
    letters: Vec<u8>,
    entries: Vec<Entry>,
    bytes: Vec<u8>,
}

fn new_strips(alloc: Global) -> Result<InputStrips, AllocError> {
    let letters = vec![in alloc; 0u8; STRIP]?;
    let entries = vec![in alloc; Entry {
        signed: 0,
        plain: 0
    }; STRIP]?;
    let bytes = vec![in alloc; 0u8; 65536]?;
    Ok(InputStrips {
        letters,
        entries,
        bytes,
    })
}

// The script writes small letters alone, so this is no `to_digit`.
fn digit(byte: u8) -> u8
    ensures { result < 16 }
{
    match byte {
        b'0'..=b'9' => byte - b'0',
        b'a'..=b'f' => byte - b'a' + 10,
        _ => 0,
    }
}

// The bytes that pairs of digits give; `-` gives none.
fn decode(alloc: Global, text: &[u8]) -> Result<Vec<u8>, AllocError> {
    let mut bytes = Vec::new(alloc);
    for pair in text.chunks_exact(2) {
        bytes.push(digit(pair[0]) * 16 + digit(pair[1]))?;
    }
    Ok(bytes)
}

fn write_entries<W: Write>(out: &mut W, entries: &[Entry]) -> io::Result<()> {
    for (i, entry) in entries.iter().enumerate() {
        let comma = if i > 0 { "," } else { "" };
        let signed = entry.signed;
        let plain = entry.plain;
        write!(out, "{comma}{signed}:{plain}")?;
    }
    Ok(())
}

fn write_fault<W: Write>(out: &mut W, fault: Fault) -> io::Result<()> {
    let code = fault.stop.code();
    let place = fault.place;
    write!(out, "{code}@{place}")
}

// What the preset holds, and whether writing it gives the bytes that it was read from.
fn write_contents<W: Write>(
    out: &mut W,
    header: Header,
    strips: &mut InputStrips,
    input: &[u8],
) -> io::Result<()> {
    let Header { kind, q, n, l, k } = header;
    write!(out, " {kind} {q} {n} {l} {k} ")?;
    let letters = header.letter_count().unwrap_or(0).min(strips.letters.len());
    let entries = header.entry_count().unwrap_or(0).min(strips.entries.len());
    let letters = ShownLetters {
        letters: &strips.letters[..letters],
    };
    write!(out, "{letters} ")?;
    write_entries(out, &strips.entries[..entries])?;
    let back = match write_preset(header, &strips.letters, &strips.entries, &mut strips.bytes) {
        Ok(len) => len <= strips.bytes.len() && input.starts_with(&strips.bytes[..len]),
        Err(_) => false,
    };
    let word = if back { "back" } else { "differs" };
    write!(out, " {word}")
}

fn write_case<W: Write>(out: &mut W, strips: &mut InputStrips, input: &[u8]) -> io::Result<()> {
    match read_whole(input, &mut strips.letters, &mut strips.entries) {
        Ok(_) => write!(out, "ok ")?,
        Err(fault) => {
            write_fault(out, fault)?;
            write!(out, " ")?;
        }
    }
    match read_preset(input, &mut strips.letters, &mut strips.entries) {
        Ok((header, rest)) => {
            let left = rest.len();
            write!(out, "rest={left}")?;
            write_contents(out, header, strips, input)?;
        }
        Err(fault) => write_fault(out, fault)?,
    }
    writeln!(out)
}

fn run(rt: &HostRuntime) -> io::Result<()> {
    let alloc = rt.alloc();
    let mut strips = new_strips(alloc)?;
    let mut out = BufWriter::new(alloc, rt.stdout())?;
    for line in BufReader::new(alloc, rt.stdin())?.lines(alloc) {
        let line = line?;
        let input = decode(alloc, line.as_bytes())?;
        write_case(&mut out, &mut strips, &input)?;
    }
    out.flush()
}

fn main(rt: HostRuntime) -> anyhow::Result<()> {
    run(&rt)?;
    Ok(())
}
