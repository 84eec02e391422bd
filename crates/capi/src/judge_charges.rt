// A preset of one kind, judged on lent strips of charges.
ghost use Rattle.std.specs.Prelude.{◌≡◌, ◌+◌, ◌-◌, ◌^◌, ◌≤◌, map, length, MatchResult};
ghost use Rattle.fault.specs.Limits.{most_words};
ghost use Rattle.fault.specs.Answers.{at_front};
ghost use Rattle.preset.specs.Loads.{preset_of};
ghost use Rattle.preset.specs.Sizes.{Sized};
ghost use Rattle.capi.specs.Judging.{JudgedOn};

use crate::answers::{JudgeAnswer, judge_answer};
use crate::entries::fill_entries;
use bench::Break;
use charge::Charge;
use fault::Fault;
use preset::{Entry, Header, Loaded, Sent};
use preset_bench::judge;

// How many crossings were written: one for each word of a letter less than the label's, unless judging was refused.
fn crossing_count<C: Charge>(header: Header, found: &Result<Option<Break<C>>, Fault>) -> usize
    requires { Sized header }
    ensures { MatchResult found.now
        (λ _. result ≡ header.q ^ (header.n + header.k - 1 - 1))
        (λ _. result ≡ 0) }
{
    match found {
        Ok(_) => header.q.pow((header.n + header.k - 2) as u32) as usize,
        Err(_) => 0,
    }
}

// Writes the entries that charges are sent as to the front of a strip, which has room.
fn write_entries<C: Sent>(charges: &[C], strip: &mut [Entry])
    requires { length charges.now ≤ length strip.old }
    ensures { strip.new ≡ at_front (map C.sending.entry charges.now) strip.old }
{
    for (i, charge) in charges.iter().enumerate() {
        strip[i] = charge.to_entry();
    }
}

// Judges a preset, given a strip of charges for its entries and one for its crossings, each for as many as any preset
// has.
pub(crate) fn judge_charges<C: Sent>(
    preset: Loaded<'_>,
    charges: &mut [C],
    work: &mut [C],
    crossings: &mut [Entry],
    ring: &mut [u8],
) -> JudgeAnswer
    requires kind { preset.kind ≡ C.sending.named }
    requires charge_room { length charges.old ≡ most_words }
    requires crossing_room { length work.old ≡ most_words }
    ensures { JudgedOn C.kind C.sending (preset_of preset.entry)
        crossings.old crossings.new ring.old ring.new result }
{
    fill_entries(preset, charges);
    let charges = &charges[..preset.entries.len()];
    let room = crossings.len().min(work.len());
    let strip = &mut work[..room];
    let found = judge(preset, charges, strip, ring);
    let count = crossing_count(preset.header, &found);
    write_entries(&strip[..count], crossings);
    judge_answer(found)
}
