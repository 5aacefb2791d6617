ghost use Rattle.std.specs.Prelude.{◌≡◌};
ghost use Rattle.mu_tables.specs.Work.{raised};

/// How much a check has done so far: the lines of proofs that it looked at. It stays at the last value that it can hold.
#[derive(Clone, Copy, Debug, PartialEq, Eq)]
pub struct Work {
    lines: u64,
}

impl Work {
    /// No work so far.
    pub fn new() -> Work
        ensures { result.lines ≡ 0 }
    {
        Work { lines: 0 }
    }

    /// The lines that were looked at.
    pub fn lines(&self) -> u64
        ensures { result ≡ self.now.lines }
    {
        self.lines
    }

    /// Counts n more lines.
    pub fn add_lines(&mut self, n: u64)
        ensures { self.new.lines ≡ raised self.old.lines n }
    {
        self.lines = self.lines.saturating_add(n);
    }
}
