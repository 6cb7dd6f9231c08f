//! Sets of a card's formulas as marks: labels, and the rests of a set.
ghost use Rattle.std.specs.Prelude.{◌≡◌, not, ◌||◌, false, replicate};
ghost use Rattle.covered.specs.Marks.{mark, marked};
ghost use Rattle.steps.specs.Sets.{AddsLabel, MarksLabel, MarksObligations, TakesRests, TellsCovered};

use card::entries::label_of;
use card::source::CardSource;
use covered::marks::{is_marked, set_mark};
use records::NodeRecord;

/// Marks the formulas of a node's label.
pub fn add_label<S: CardSource>(source: &S, node: NodeRecord, marks: &mut [bool; 1024])
    ensures { AddsLabel (S.card source.now) node marks.old marks.new }
{
    let first = node.first_label as usize;
    // Past the list's end the default entry counts, which an iterator over the list would not give.
    for k in 0..node.label_count as usize {
        let formula = label_of(source, first + k);
        set_mark(marks, formula as usize);
    }
}

/// The marks of a node's label.
pub fn label_marks<S: CardSource>(source: &S, node: NodeRecord) -> [bool; 1024]
    ensures { MarksLabel (S.card source.now) node result }
{
    let mut marks = [false; 1024];
    add_label(source, node, &mut marks);
    marks
}

/// The set of one formula.
pub(crate) fn only(formula: u16) -> [bool; 1024]
    ensures { result ≡ mark (replicate 1024 false) formula }
{
    let mut marks = [false; 1024];
    set_mark(&mut marks, formula as usize);
    marks
}

/// The marks of what a node has to keep: the safety formula, which has the number `safety`, and the node's label.
pub fn obligation_marks<S: CardSource>(source: &S, safety: u16, node: NodeRecord) -> [bool; 1024]
    ensures { MarksObligations (S.card source.now) safety node result }
{
    let mut marks = only(safety);
    add_label(source, node, &mut marks);
    marks
}

/// The rests of the marked ones among the first `count` formulas, where `memo` has the rest of each formula; none where one of them is
/// not listed.
pub fn rest_marks(
    count: usize,
    memo: &[Option<u16>; 1024],
    marks: &[bool; 1024],
) -> Option<[bool; 1024]>
    ensures { TakesRests count memo.now marks.now result }
{
    let mut rests = [false; 1024];
    // Two tables are read at one number, and the number is what is tested; a zip of both says no more.
    for i in 0..count.min(1024) {
        if is_marked(marks, i) {
            let rest = memo[i]?;
            set_mark(&mut rests, rest as usize);
        }
    }
    Some(rests)
}

/// Is formula i covered, if it is marked?
fn is_covered(marks: &[bool; 1024], covered: &[bool; 1024], i: usize) -> bool
    ensures { result ≡ (not (marked marks.now i) || marked covered.now i) }
{
    !is_marked(marks, i) || is_marked(covered, i)
}

/// Is each marked one among the first `count` formulas covered?
pub fn all_covered(count: usize, marks: &[bool; 1024], covered: &[bool; 1024]) -> bool
    ensures { TellsCovered count marks.now covered.now result }
{
    (0..count.min(1024)).all(|i| is_covered(marks, covered, i))
}
