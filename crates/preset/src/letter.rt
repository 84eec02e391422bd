// Letters of a rule, as they stand in a preset.
ghost use Rattle.preset.specs.Items.{letter_format};
ghost use Rattle.preset.specs.Numbers.{spell};

use crate::input::Unread;
use crate::item_limits::ItemLimits;
use crate::items::{Encode, PresetItem};
use crate::number::{put_number, spelt_len};
use fault::{Fault, Stop};

impl PresetItem for u8 {
    ghost format = { letter_format };

    fn read(limits: ItemLimits, input: &mut Unread<'_>) -> Result<u8, Fault> {
        Ok(input.field(0, limits.q as u64, Stop::BadLetter)? as u8)
    }

    fn fits(self, limits: ItemLimits) -> bool {
        self < limits.q
    }

    fn stop() -> Stop {
        Stop::BadLetter
    }
}

impl Encode for u8 {
    ghost bytes = { λ _ x. spell x };

    fn len(self, _shape: ItemLimits) -> usize {
        spelt_len(self as u64)
    }

    fn put(self, _shape: ItemLimits, out: &mut [u8]) -> usize {
        put_number(self as u64, out)
    }
}
