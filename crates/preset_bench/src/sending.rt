// What was found, with its charges as entries.
ghost use Rattle.std.specs.Prelude.{◌≡◌};
ghost use Rattle.preset_bench.specs.Finds.{sent_break, sent_found};

use bench::Break;
use fault::Fault;
use preset::{Entry, Sent};

// A break with its totals as entries.
fn sent_break<C: Sent>(found: Break<C>) -> Break<Entry>
    ensures { result ≡ sent_break C.sending found }
{
    Break {
        word: found.word,
        len: found.len,
        first: found.first.to_entry(),
        second: found.second.to_entry(),
    }
}

/// What was found, with its two totals as the entries that they are sent as.
pub fn sent_found<C: Sent>(
    found: Result<Option<Break<C>>, Fault>,
) -> Result<Option<Break<Entry>>, Fault>
    ensures { result ≡ sent_found C.sending found }
{
    found.map(|found| found.map(sent_break))
}
