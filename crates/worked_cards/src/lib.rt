//! Worked cards: texts and cards with their outcomes, computed by the definitions from the bytes of the text on.
#![tactic(auto)]

ghost use Rattle.worked_cards.specs.Worked.{MarkedAsListed, worked};
ghost use Rattle.worked_cards.specs.Wrong.{wrong_false, wrong_copy, wrong_twice, wrong_lists};

/// The eight worked cards have the outcomes listed with them, and the wrong cards the refusals.
pub fn cards_are_marked_as_listed()
    ensures worked { MarkedAsListed worked }
    ensures entries { MarkedAsListed wrong_false }
    ensures conditions { MarkedAsListed wrong_copy }
    ensures order { MarkedAsListed wrong_twice }
    ensures lists { MarkedAsListed wrong_lists }
{}
