// Letters and entries alike: many items, one after another, read from bytes or written as bytes.
ghost use Rattle.std.specs.Prelude.{◌≡◌, ℕ, ◌≤◌, true, List, length, is_ok, Ok};
ghost use Rattle.fault.specs.Answers.{plainly, at_front, strip_after};
ghost use Rattle.fault.specs.Checks.{each_fits};
ghost use Rattle.preset.specs.Answers.{many, skipped};
ghost use Rattle.preset.specs.Inputs.{Reads};
ghost use Rattle.preset.specs.Items.{Format, sent};
ghost use Rattle.preset.specs.declared.item_limits.ItemLimits.{ItemLimits};

use crate::input::Unread;
use crate::item_limits::ItemLimits;
use fault::{Fault, Stop};

// What stands in a strip of a preset. The member `format` says how it is read and which values are allowed.
pub(crate) trait PresetItem: Copy {
    ghost format: { Format Self };

    // Reads an item.
    fn read(limits: ItemLimits, input: &mut Unread<'_>) -> Result<Self, Fault>
        ensures { Reads input.old input.new result (format.reads limits) };

    // Whether the item is allowed.
    fn fits(self, limits: ItemLimits) -> bool
        ensures { result ≡ format.fits limits self };

    // The stop code of an item that is not allowed.
    fn stop() -> Stop
        ensures { result ≡ format.stop };
}

// What is sent as bytes.
pub(crate) trait Encode: Copy {
    ghost bytes: { ItemLimits → Self → List ℕ };

    // How many bytes there are.
    fn len(self, limits: ItemLimits) -> usize
        ensures count { result ≡ length (bytes limits self) }
        ensures bound { result ≤ 20 };

    // Writes the bytes to the front of a strip, where there is room, and answers how many there are.
    fn put(self, limits: ItemLimits, out: &mut [u8]) -> usize
        requires { length (bytes limits self) ≤ length out.old }
        ensures count { result ≡ length (bytes limits self) }
        ensures strip { out.new ≡ at_front (bytes limits self) out.old };
}

// Passes over `count` items.
pub(crate) fn skip<T: PresetItem>(
    limits: ItemLimits,
    input: &mut Unread<'_>,
    count: usize,
) -> Result<(), Fault>
    ensures { Reads input.old input.new result
        (λ whole bs. skipped (many (T.PresetItem.format.reads limits whole) count bs)) }
{
    for _ in 0..count {
        T::read(limits, input)?;
    }
    Ok(())
}

// Reads an item that is there: the bytes are passed over once before, since a refusal leaves the strips as they were.
fn read_there<T: PresetItem>(limits: ItemLimits, input: &mut Unread<'_>) -> T
    requires { is_ok (T.PresetItem.format.reads limits input.old.whole input.old.bytes.now) ≡ true }
    ensures { Reads input.old input.new (Ok result) (T.PresetItem.format.reads limits) }
{
    let Ok(item) = T::read(limits, input) else {
        unreachable!()
    };
    item
}

// Reads `count` items, which are there, into the front of the strip.
pub(crate) fn fill<T: PresetItem>(
    limits: ItemLimits,
    mut input: Unread<'_>,
    strip: &mut [T],
    count: usize,
)
    requires room { count ≤ length strip.old }
    requires there { let reads = T.PresetItem.format.reads limits input.whole in
        is_ok (many reads count input.bytes.now) ≡ true }
    ensures { let reads = T.PresetItem.format.reads limits input.entry.whole in
        strip.new ≡ strip_after (λ p. p.0) strip.old (many reads count input.entry.bytes.now) }
{
    for item in &mut strip[..count] {
        *item = read_there::<T>(limits, &mut input);
    }
}

// Each item is allowed; else the index of the first that is not.
pub(crate) fn check<T: PresetItem>(limits: ItemLimits, items: &[T]) -> Result<(), Fault>
    ensures { plainly result
        ≡ each_fits (T.PresetItem.format.fits limits) T.PresetItem.format.stop 0 items.now }
{
    match items.iter().position(|item| !item.fits(limits)) {
        Some(i) => Err(T::stop().at(i)),
        None => Ok(()),
    }
}

// How many bytes the items take.
pub(crate) fn total_len<T: Encode>(limits: ItemLimits, items: &[T]) -> usize
    requires { length items.now ≤ 4096 }
    ensures count { result ≡ length (sent (T.Encode.bytes limits) items.now) }
    ensures bound { result ≤ 81920 }
{
    // A `for` and no `sum`, through which the bound on the total is not seen.
    let mut count = 0;
    for item in items {
        count += item.len(limits);
    }
    count
}

// Writes the items to the front of a strip, where there is room, and answers how many bytes they take.
pub(crate) fn put_all<T: Encode>(limits: ItemLimits, items: &[T], out: &mut [u8]) -> usize
    requires { length (sent (T.Encode.bytes limits) items.now) ≤ length out.old }
    ensures count { result ≡ length (sent (T.Encode.bytes limits) items.now) }
    ensures strip { out.new ≡ at_front (sent (T.Encode.bytes limits) items.now) out.old }
{
    let mut count = 0;
    for item in items {
        count += item.put(limits, &mut out[count..]);
    }
    count
}
