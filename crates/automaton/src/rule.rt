// Rules of cellular automata.
ghost use Rattle.std.specs.Prelude.{◌≡◌, slice_index};
ghost use Rattle.automaton.specs.Meanings.{Local, Lawful};

/// A rule of cellular automata: a letter below q for each word of n letters below q. The member `meaning` is q, n,
/// the reach l and the list of the answers, by code; `lawful` says that q is 2 to 8, n is 1 to 12, l is below n, and
/// that there are q^n answers below q. Questions change nothing and repeat their answers.
pub trait Rule {
    ghost meaning: { Self → Local };

    ghost lawful: { (r : Self) → Lawful (meaning r) };

    /// The alphabet size q.
    fn q(&self) -> usize
        ensures { result ≡ (meaning self.now).q };

    /// The window n: how many cells the next letter of a cell depends on.
    fn n(&self) -> usize
        ensures { result ≡ (meaning self.now).n };

    /// The reach l: how many cells of the window stand before the cell itself.
    fn l(&self) -> usize
        ensures { result ≡ (meaning self.now).l };

    /// The answer for the word of this code, and 0 past the last code, which is q^n - 1.
    fn answer(&self, code: usize) -> u8
        ensures { result ≡ slice_index (meaning self.now).answers code };
}
