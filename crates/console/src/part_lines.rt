// The lines that the parts of a page stand on.
ghost use Rattle.std.specs.Prelude.{◌≡◌};
ghost use Rattle.console.specs.Refusals.{refused_line};

use fault::Stop;

/// The number of each part's line, counted from 1. Lines without words count too.
#[derive(Clone, Copy, PartialEq, Eq, Debug)]
pub struct PartLines {
    /// The line of the kind of charge.
    pub kind: usize,
    /// The line of the alphabet size.
    pub letters: usize,
    /// The line of the rule's window.
    pub window: usize,
    /// The line of the rule's reach.
    pub reach: usize,
    /// The line of the density's width.
    pub width: usize,
    /// The line of the rule's letters.
    pub rule: usize,
    /// The line of the density's entries.
    pub density: usize,
}

/// The line of the part that a preset is refused for, if the stop code speaks of one: that of the width for too many
/// words, and none for a strip that is too short.
pub fn line_of_refusal(lines: PartLines, stop: Stop) -> Option<usize>
    ensures { result ≡ refused_line lines stop }
{
    match stop {
        Stop::UnknownKind => Some(lines.kind),
        Stop::BadAlphabet => Some(lines.letters),
        Stop::BadWindow => Some(lines.window),
        Stop::BadReach => Some(lines.reach),
        Stop::BadWidth | Stop::TooManyWords => Some(lines.width),
        Stop::BadLetter => Some(lines.rule),
        Stop::BadEntry => Some(lines.density),
        _ => None,
    }
}
