// The entries of a preset as charges.
ghost use Rattle.std.specs.Prelude.{◌≡◌, map, length, take};
ghost use Rattle.fault.specs.Limits.{most_words};

use preset::{Loaded, Sent};
use preset_bench::fill_charges;

// Writes the charges that are sent as the entries of a preset to the front of a strip, which is as long as any preset
// asks.
pub(crate) fn fill_entries<C: Sent>(preset: Loaded<'_>, strip: &mut [C])
    requires kind { preset.kind ≡ C.sending.named }
    requires room { length strip.old ≡ most_words }
    ensures { let entries = preset.entry.entries.now in
        map C.sending.entry (take (length entries) strip.new) ≡ entries }
{
    let Ok(()) = fill_charges(preset.entries, strip) else {
        unreachable!()
    };
}
