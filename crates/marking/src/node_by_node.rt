//! Judging the nodes of a card.
ghost use Rattle.marking.specs.Nodes.{JudgesCovering, JudgesLabels, JudgesMove, JudgesMoves, JudgesNode, JudgesNodes, JudgesTargets, RestsBy};

use crate::leaves::{label_kept, refused, target_kept};
use crate::terms::Terms;
use card::entries::{Kind, label_of, move_of, target_of};
use card::entry::all_entries;
use card::source::CardSource;
use coverings::covering::covering_kept;
use faults::card::{CardFault, CardList, CardReason};
use records::{MoveRecord, NodeRecord};
use steps::kept::{rests_by, step_kept};
use steps::sets::{obligation_marks, rest_marks};

/// Judges the label entries of a node.
fn judge_labels<S: CardSource>(source: &S, kind: Kind, node: NodeRecord) -> Result<(), CardFault>
    ensures { JudgesLabels (S.card source.now) kind node result }
{
    let first = node.first_label as usize;
    // Past the list's end the default entry counts, which an iterator over the list would not give.
    for k in 0..node.label_count as usize {
        if !label_kept(kind, label_of(source, first + k)) {
            return Err(refused(CardReason::Label, CardList::Labels, first + k));
        }
    }
    Ok(())
}

/// Judges the targets of the moves of node n, in a card of so many nodes.
fn judge_targets<S: CardSource>(
    source: &S,
    kind: Kind,
    nodes: usize,
    n: usize,
    node: NodeRecord,
) -> Result<(), CardFault>
    ensures { JudgesTargets (S.card source.now) kind nodes n node result }
{
    let first = node.first_move as usize;
    // Past the list's end the default entry counts, which an iterator over the list would not give.
    for k in 0..node.move_count as usize {
        let target = target_of(move_of(source, first + k));
        if !target_kept(kind, nodes, n, target) {
            return Err(refused(CardReason::Target, CardList::Moves, first + k));
        }
    }
    Ok(())
}

/// The rests of what is marked, by the reading of a move; none where one of them is not listed.
fn rests_of(terms: &Terms, marks: &[bool; 1024], taken: MoveRecord) -> Option<[bool; 1024]>
    ensures { RestsBy terms.now.kind terms.now.records.now terms.now.slots.now marks.now taken result }
{
    // In a function of its own: as a local of `judge_move` the memo of all rests, 4 KiB, is filled and copied more often for each move.
    let records = terms.records;
    rest_marks(
        records.len(),
        &rests_by(terms.kind, records, terms.slots, taken),
        marks,
    )
}

/// Judges the rests and the step of a move, where the marks are those of what its node has to keep: its label and the safety formula.
fn judge_move<S: CardSource>(
    source: &S,
    terms: &Terms,
    marks: &[bool; 1024],
    number: usize,
) -> Result<(), CardFault>
    ensures { JudgesMove (S.card source.now) terms.now.kind terms.now.records.now terms.now.slots.now marks.now number result }
{
    let taken = move_of(source, number);
    let unlisted = refused(CardReason::Missing, CardList::Moves, number);
    let rests = rests_of(terms, marks, taken);
    let rests = rests.as_ref().ok_or(unlisted)?;
    if !step_kept(source, terms.kind, terms.records, rests, target_of(taken)) {
        return Err(refused(CardReason::Step, CardList::Moves, number));
    }
    Ok(())
}

/// Judges the rests and the steps of all moves of a node.
fn judge_moves<S: CardSource>(
    source: &S,
    terms: &Terms,
    marks: &[bool; 1024],
    node: NodeRecord,
) -> Result<(), CardFault>
    ensures { JudgesMoves (S.card source.now) terms.now.kind terms.now.records.now terms.now.slots.now marks.now node result }
{
    let first = node.first_move as usize;
    // Past the list's end the default entry counts, which an iterator over the list would not give.
    for k in 0..node.move_count as usize {
        judge_move(source, terms, marks, first + k)?;
    }
    Ok(())
}

/// Judges the covering of node n.
fn judge_covering<S: CardSource>(
    source: &S,
    terms: &Terms,
    node: NodeRecord,
    n: usize,
) -> Result<(), CardFault>
    ensures { JudgesCovering (S.card source.now) terms.now node n result }
{
    if !covering_kept(source, terms.variables, node) {
        return Err(refused(CardReason::Covering, CardList::Nodes, n));
    }
    Ok(())
}

/// Judges node n, which is this record: its label, its covering, the targets of its moves, then move by move the rests and the step.
fn judge_node<S: CardSource>(
    source: &S,
    terms: &Terms,
    node: NodeRecord,
    n: usize,
) -> Result<(), CardFault>
    ensures { JudgesNode (S.card source.now) terms.now node n result }
{
    judge_labels(source, terms.kind, node)?;
    judge_covering(source, terms, node, n)?;
    judge_targets(source, terms.kind, source.node_count(), n, node)?;
    let marks = obligation_marks(source, terms.safety, node);
    judge_moves(source, terms, &marks, node)
}

/// Judges all nodes in the order of their numbers, those never reached among them.
pub(crate) fn judge_nodes<S: CardSource>(source: &S, terms: &Terms) -> Result<(), CardFault>
    ensures { JudgesNodes (S.card source.now) terms.now result }
{
    for (n, node) in all_entries::<S, NodeRecord>(source).enumerate() {
        judge_node(source, terms, node, n)?;
    }
    Ok(())
}
