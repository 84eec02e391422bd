// What the meters of a site read.
ghost use Rattle.std.specs.Prelude.{◌≡◌};

/// What the meters of one site read.
#[derive(Clone, Copy, PartialEq, Eq, Debug)]
pub struct Reading<C> {
    /// Its charge when the ring was opened.
    pub opening: C,
    /// What has crossed into it in all steps since.
    pub crossed: C,
    /// What touches have added to it since.
    pub touched: C,
    /// Its charge as the cells stand.
    pub now: C,
}
