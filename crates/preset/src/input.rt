// An input that is read one number after another.
ghost use Rattle.std.specs.Prelude.{◌≡◌, ◌-◌, ◌<◌, ◌≤◌, length, IfOk};
ghost use Rattle.fault.specs.Limits.{within};

use crate::number::read_number;
use charge::ChargeKind;
use fault::{Fault, Stop};

// Whether a value lies from `low` to `end` - 1.
pub(crate) fn is_within(value: u64, low: u64, end: u64) -> bool
    ensures { result ≡ within low end value }
{
    low <= value && value < end
}

// What is still to be read of an input, and how long the whole input is.
#[derive(Clone, Copy)]
pub(crate) struct Unread<'a> {
    pub whole: usize,
    pub bytes: &'a [u8],
    ghost within: { length bytes.now ≤ whole },
}

impl<'a> Unread<'a> {
    ghost use Rattle.preset.specs.Fields.{field};
    ghost use Rattle.preset.specs.Inputs.{Reads};
    ghost use Rattle.preset.specs.Numbers.{number_read};
    ghost use Rattle.preset.specs.Presets.{kind_read};

    // An input of which nothing has been read.
    pub(crate) fn new(input: &'a [u8]) -> Unread<'a>
        ensures whole { result.whole ≡ length input.now }
        ensures bytes { result.bytes.now ≡ input.now }
    {
        Unread {
            whole: input.len(),
            bytes: input,
        }
    }

    // The index in the input of the byte that stands next.
    pub(crate) fn place(&self) -> usize
        ensures { result ≡ self.now.whole - length self.now.bytes.now }
    {
        self.whole - self.bytes.len()
    }

    // Reads a number.
    pub(crate) fn number(&mut self) -> Result<u64, Fault>
        ensures { Reads self.old self.new result (λ whole bs. number_read (whole - length bs) bs) }
    {
        let (number, rest) = read_number(self.bytes, self.place())?;
        self.bytes = rest;
        Ok(number)
    }

    // Reads the number of a kind of charge.
    pub(crate) fn kind(&mut self) -> Result<ChargeKind, Fault>
        ensures { Reads self.old self.new result kind_read }
    {
        let place = self.place();
        let number = self.number()?;
        ChargeKind::try_from(number).map_err(|_| Stop::UnknownKind.at(place))
    }

    // Reads a number that lies from `low` to `end` - 1.
    pub(crate) fn field(&mut self, low: u64, end: u64, stop: Stop) -> Result<u64, Fault>
        ensures answer { Reads self.old self.new result (λ whole. field whole low end stop) }
        ensures bounds { IfOk result (λ v. (low ≤ v) × (v < end)) }
    {
        let place = self.place();
        let value = self.number()?;
        if !is_within(value, low, end) {
            return Err(stop.at(place));
        }
        Ok(value)
    }
}
