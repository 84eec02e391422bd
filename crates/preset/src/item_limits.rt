// What the letters and the entries of a preset are held to: the kind of charge and the alphabet size.
use charge::ChargeKind;

#[derive(Clone, Copy)]
pub(crate) struct ItemLimits {
    pub kind: ChargeKind,
    pub q: u8,
}
