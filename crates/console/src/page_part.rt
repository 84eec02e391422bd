// The parts of a page.
ghost use Rattle.console.specs.Names.{part_text};

use crate::names::Named;

/// A part of a page. Each stands on a line of its own, which begins with the part's name, in this order.
#[derive(Clone, Copy, PartialEq, Eq, Debug)]
pub enum PagePart {
    /// `kind`, with the name of the kind of charge.
    Kind,
    /// `letters`, with the alphabet size.
    Letters,
    /// `window`, with how many letters the rule's windows have.
    Window,
    /// `reach`, with how many of them stand before the cell.
    Reach,
    /// `width`, with how many letters the density's words have.
    Width,
    /// `rule`, with a letter for each word of the window, by code.
    Rule,
    /// `density`, with an entry for each word of the width, by code.
    Density,
    /// `bytes`, with how many bytes the preset has. The line may be left out.
    Bytes,
}

impl Named for PagePart {
    ghost text = { part_text };

    fn name(self) -> &'static str {
        match self {
            PagePart::Kind => "kind",
            PagePart::Letters => "letters",
            PagePart::Window => "window",
            PagePart::Reach => "reach",
            PagePart::Width => "width",
            PagePart::Rule => "rule",
            PagePart::Density => "density",
            PagePart::Bytes => "bytes",
        }
    }
}
