// The calls of a script from C.
ghost use Rattle.std.specs.Prelude.{◌≡◌};
ghost use Rattle.automaton.specs.Making.{lent_items};
ghost use Rattle.capi.specs.Scripts.{ring_at, script_call, asks};

use fault::limits::MOST_CELLS;
use fault::{Fault, Stop};
use player::Call;

const OPEN: u32 = 1;

const TOUCH: u32 = 2;

const STEP: u32 = 3;

const READ: u32 = 4;

const CLOSE: u32 = 5;

/// A call of a script: its number, and what it is given.
#[derive(Clone, Copy)]
#[repr(C)]
pub struct ScriptCall {
    /// 1 open, 2 touch, 3 step, 4 read, 5 close; another number asks nothing.
    pub call: u32,
    /// The letter that a touch puts into its cell.
    pub letter: u8,
    /// The site of a touch or a read; for open, where its ring begins in the letters of all rings.
    pub at: usize,
    /// How many letters the ring of an open has.
    pub len: usize,
}

// The calls of a script, and the letters of all its rings.
#[derive(Clone, Copy)]
pub(crate) struct Script<'a> {
    pub calls: &'a [ScriptCall],
    pub rings: &'a [u8],
}

// A ring from the letters of all rings. Its length is tested here too, before their end, so that the lowest code that
// fits is answered.
fn ring_at(letters: &[u8], at: usize, len: usize) -> Result<&[u8], Fault>
    ensures { lent_items result ≡ ring_at letters.now at len }
{
    Stop::BadLength.unless(1 <= len && len <= MOST_CELLS)?;
    Stop::ShortStrip.unless(at <= letters.len() && len <= letters.len() - at)?;
    Ok(&letters[at..at + len])
}

impl ScriptCall {
    // What is asked of the player, if the number is that of a call.
    pub(crate) fn asked(self, letters: &[u8]) -> Result<Option<Call<'_>>, Fault>
        ensures { asks result ≡ script_call letters.now self }
    {
        let ScriptCall {
            call,
            letter,
            at: site,
            len,
        } = self;
        match call {
            OPEN => Ok(Some(Call::Open(ring_at(letters, site, len)?))),
            TOUCH => Ok(Some(Call::Touch { site, letter })),
            STEP => Ok(Some(Call::Step)),
            READ => Ok(Some(Call::Read { site })),
            CLOSE => Ok(Some(Call::Close)),
            _ => Ok(None),
        }
    }
}
