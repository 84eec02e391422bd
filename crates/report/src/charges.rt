// The entries of a preset as charges.
ghost use Rattle.std.specs.Prelude.{◌≡◌, true, map, IfOk};
ghost use Rattle.std.specs.List.{AllByRecursion};
ghost use Rattle.preset.specs.Entries.{fits};

use preset::{Entry, Sent};
use preset_bench::fill_charges;
use std::alloc::{AllocError, Global};

// The charges that are sent as entries, all of which the kind allows.
pub(crate) fn charges_of<C: Sent>(alloc: Global, entries: &[Entry]) -> Result<Vec<C>, AllocError>
    requires { AllByRecursion (λ e. fits C.sending.named e ≡ true) entries.now }
    ensures { IfOk result (λ v. map C.sending.entry v.items ≡ entries.now) }
{
    let mut charges = vec![in alloc; C::zero(); entries.len()]?;
    let Ok(()) = fill_charges(entries, &mut charges) else {
        unreachable!()
    };
    Ok(charges)
}
