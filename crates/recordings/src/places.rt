// Where macroblock i stands in a picture w wide. A header may say that w is 0: then both are 0.
ghost use Rattle.std.specs.Prelude.{◌≡◌};
ghost use Rattle.recordings.specs.Places.{column_at, row_at};

pub fn column(i: usize, w: usize) -> usize
    ensures { result ≡ column_at i w }
{
    i.checked_rem(w).unwrap_or(0)
}

pub fn row(i: usize, w: usize) -> usize
    ensures { result ≡ row_at i w }
{
    i.checked_div(w).unwrap_or(0)
}
