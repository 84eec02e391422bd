// The entries of a preset as charges.
ghost use Rattle.std.specs.Prelude.{◌≡◌, ◌≤◌, true, map, length, take};
ghost use Rattle.std.specs.List.{AllByRecursion};
ghost use Rattle.fault.specs.declared.Stop.TheVariants.{BadEntry};
ghost use Rattle.fault.specs.Answers.{plainly};
ghost use Rattle.fault.specs.Checks.{each_fits};
ghost use Rattle.preset.specs.Entries.{fits};
ghost use Rattle.preset_bench.specs.Charges.{charges_checked, entries_written, FrontSent};

use fault::{Fault, Stop};
use preset::{Entry, Sent};

// Whether a charge is sent as the entry.
fn is_sent<C: Sent>(entry: &Entry) -> bool
    ensures { result ≡ fits C.sending.named entry.now }
{
    C::from_entry(*entry).is_some()
}

// A charge is sent as each entry; else the index of the first that none is sent as.
fn check_entries<C: Sent>(entries: &[Entry]) -> Result<(), Fault>
    ensures { plainly result ≡ each_fits (fits C.sending.named) BadEntry 0 entries.now }
{
    match entries.iter().position(|entry| !is_sent::<C>(entry)) {
        Some(i) => Err(Stop::BadEntry.at(i)),
        None => Ok(()),
    }
}

// The charge that is sent as an entry, which the kind allows.
fn charge_of<C: Sent>(entry: Entry) -> C
    requires { fits C.sending.named entry ≡ true }
    ensures { C.sending.entry result ≡ entry }
{
    let Some(charge) = C::from_entry(entry) else {
        unreachable!()
    };
    charge
}

// Writes the charges that are sent as the entries, which the kind allows.
fn write_charges<C: Sent>(entries: &[Entry], strip: &mut [C])
    requires room { length entries.now ≤ length strip.old }
    requires allowed { AllByRecursion (λ e. fits C.sending.named e ≡ true) entries.now }
    ensures { FrontSent C.sending entries.now strip.old strip.new }
{
    for (i, entry) in entries.iter().enumerate() {
        strip[i] = charge_of::<C>(*entry);
    }
}

/// Writes the charges that are sent as the entries to the front of a strip, one each.
///
/// # Errors
///
/// `Stop::ShortStrip` at place 0 where the strip is shorter than the entries; `Stop::BadEntry` at the index of the
/// first entry that the kind does not allow. A refusal leaves the strip as it was.
pub fn fill_charges<C: Sent>(entries: &[Entry], strip: &mut [C]) -> Result<(), Fault>
    ensures answer { plainly result
        ≡ charges_checked C.sending.named (length strip.old) entries.now }
    ensures strip { let checked = charges_checked C.sending.named (length strip.old) entries.now in
        FrontSent C.sending (entries_written checked entries.now) strip.old strip.new }
{
    Stop::ShortStrip.unless(entries.len() <= strip.len())?;
    check_entries::<C>(entries)?;
    write_charges(entries, strip);
    Ok(())
}
