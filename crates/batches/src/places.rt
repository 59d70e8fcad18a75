// Where the lines of an edge stand in a plane.
ghost use Rattle.std.specs.Prelude.{◌≡◌, ◌+◌, ◌-◌, ◌*◌, ◌<◌, ◌≤◌};

// `at` is the place of the first line's first sample, `along` the way from a line to the next and `step` the
// way across the edge.
// Kept: (1) that the lines are apart is asked by contracts: `chroma_lines` and `chroma_edge`, which
// docs/PROMISES.md names, do not ask it, and would by a type that says it.
#[derive(Clone, Copy, Debug, PartialEq, Eq)]
pub struct Lines {
    pub at: usize,
    pub along: usize,
    pub step: usize,
}

impl Lines {
    // The lines n samples further across.
    pub fn ahead(self, n: usize) -> Lines
        requires { self.at + n * self.step < 18446744073709551616 }
        ensures { result ≡ record { at = self.at + n * self.step; along = self.along; step = self.step } }
    {
        Lines {
            at: self.at + n * self.step,
            ..self
        }
    }

    // .. n samples before.
    pub fn back(self, n: usize) -> Lines
        requires { n * self.step ≤ self.at }
        ensures { result ≡ record { at = self.at - n * self.step; along = self.along; step = self.step } }
    {
        Lines {
            at: self.at - n * self.step,
            ..self
        }
    }
}
