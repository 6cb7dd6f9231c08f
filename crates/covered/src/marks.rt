//! Marks over the numbers of a card's formulas, at most 1,024. They are an array of the caller's, since the library takes no memory.
ghost use Rattle.std.specs.Prelude.{◌≡◌};
ghost use Rattle.covered.specs.Marks.{marked, mark};

/// Is entry i marked? An entry past the end is not.
pub fn is_marked(marks: &[bool; 1024], i: usize) -> bool
    ensures { result ≡ marked marks.now i }
{
    marks.get(i) == Some(&true)
}

/// Marks entry i; past the end nothing changes.
pub fn set_mark(marks: &mut [bool; 1024], i: usize)
    ensures { marks.new ≡ mark marks.old i }
{
    // By `get_mut` a proof knows nothing of the marks once that loan is over.
    if i < 1024 {
        marks[i] = true;
    }
}
