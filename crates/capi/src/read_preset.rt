// Reading a preset.
ghost use Rattle.std.specs.Prelude.{◌≡◌};
ghost use Rattle.fault.specs.Answers.{strip_after};
ghost use Rattle.preset.specs.Presets.{whole_reading, header_of};
ghost use Rattle.capi.specs.Answers.{read_answer};

use crate::answers::{ReadAnswer, read_answer};
use preset::{Entry, read_whole};

/// Reads the preset that the bytes are: q^n letters to the front of one strip and q^k entries to the front of the
/// other. Refused as `preset::read_whole`: by 12 at place 0 where a strip is shorter than 4,096, and by the first
/// number at fault.
#[unsafe(no_mangle)]
pub extern "C" fn ringbench_read(
    bytes: &[u8],
    letters: &mut [u8],
    entries: &mut [Entry],
) -> ReadAnswer
    ensures answer { let reading = whole_reading letters.old entries.old bytes.now in
        result ≡ read_answer (header_of reading) }
    ensures letters { let reading = whole_reading letters.old entries.old bytes.now in
        letters.new ≡ strip_after (λ p. p.letters) letters.old reading }
    ensures entries { let reading = whole_reading letters.old entries.old bytes.now in
        entries.new ≡ strip_after (λ p. p.entries) entries.old reading }
{
    read_answer(read_whole(bytes, letters, entries))
}
