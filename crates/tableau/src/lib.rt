// Cards: what one is, when one is acceptable, how one is judged, and what an acceptable card proves.
// The definitions stand in specs/. Each function here stands for laws about them: it does nothing, and its contract is the laws.
#![tactic(auto)]

ghost use Rattle.tableau.specs.Laws.{CoveringSound, CoveringMonotone, FittingStepBetween, RestMet};
ghost use Rattle.tableau.specs.Laws.{JudgeAccepts, JudgeRefuses, DepthOfNodes, DifferentFormulas};
ghost use Rattle.tableau.specs.Laws.{OpenPlayNeverLost, OpenRepliesWin, OpenSystemWins};
ghost use Rattle.tableau.specs.Laws.{ClosedPlayEnds, ClosedEndLost, ClosedInputsWin, ClosedBreaksWithin, ClosedEnvironmentWins};
ghost use Rattle.tableau.specs.Laws.{VerdictNamesWinner, JudgedDepthBoundsPlay, VerdictsAgree};
ghost use Rattle.tableau.specs.Laws.{SomeCard, OneKind, WinnerHasCard, OneWins};
ghost use Rattle.tableau.specs.Laws.{ForcesBySet, ForcesLater, ForcesWins};
ghost use Rattle.tableau.specs.WorkedCards.{WorkedCardsAsListed};
ghost use Rattle.tableau.specs.WrongCards.{WrongCardsAsListed};
ghost use Rattle.tableau.specs.UnusualCards.{UnusualCardsAsListed};
ghost use Rattle.tableau.specs.Coverings.{CoveringsAsListed, MetAsListed};

/// Where the members of a set hold, everything that the set covers holds.
pub fn covering_is_sound()
    ensures sound { CoveringSound }
    ensures monotone { CoveringMonotone }
{}

/// A step that fits a move lies between the move's cautious and generous readings.
pub fn fitting_steps_lie_between_the_readings_of_a_move()
    ensures { FittingStepBetween }
{}

/// What has to be listed where the rest of a formula is taken has that rest.
pub fn rest_is_among_what_is_met()
    ensures { RestMet }
{}

/// The judge accepts a card exactly if the card keeps every condition, with the right verdict and depth.
/// It refuses a card by the first condition, in the order, that fails.
pub fn judge_accepts_exactly_the_cards_that_keep_all_conditions()
    ensures accepts { JudgeAccepts }
    ensures refuses { JudgeRefuses }
    ensures depths { DepthOfNodes }
    ensures different { DifferentFormulas }
{}

/// An acceptable open card: along its moves no run is ever lost, and its own replies win for the system.
pub fn open_cards_win_for_the_system()
    ensures play { OpenPlayNeverLost }
    ensures replies { OpenRepliesWin }
    ensures wins { OpenSystemWins }
{}

/// An acceptable closed card: along its moves no run has more turns than the card is deep, a run that reaches the end is lost,
/// and its own inputs win for the environment.
pub fn closed_cards_win_for_the_environment()
    ensures ends { ClosedPlayEnds }
    ensures lost { ClosedEndLost }
    ensures inputs { ClosedInputsWin }
    ensures within { ClosedBreaksWithin }
    ensures wins { ClosedEnvironmentWins }
{}

/// The verdict of an accepted card names the winner, and its depth bounds the turns of a play; any two verdicts on one specification agree.
pub fn verdict_names_the_winner()
    ensures winner { VerdictNamesWinner }
    ensures depth { JudgedDepthBoundsPlay }
    ensures agree { VerdictsAgree }
{}

/// With no limit on lists and numbers every well-formed specification has an acceptable card, and all of them are of one kind.
pub fn every_specification_has_an_acceptable_card_of_one_kind()
    ensures some { SomeCard }
    ensures kind { OneKind }
    ensures winner { WinnerHasCard }
    ensures one { OneWins }
{}

/// The environment wins exactly if it forces false from the initial formula within some number of turns; only the set counts.
pub fn environment_wins_exactly_if_it_forces_false()
    ensures set { ForcesBySet }
    ensures later { ForcesLater }
    ensures wins { ForcesWins }
{}

/// The worked cards are accepted or refused as listed. Beside them: wrong cards with the fault that comes first, unusual cards that are
/// accepted, coverings, and what has to be listed where a rest is taken.
pub fn worked_cards_have_their_outcomes()
    ensures worked { WorkedCardsAsListed }
    ensures wrong { WrongCardsAsListed }
    ensures unusual { UnusualCardsAsListed }
    ensures coverings { CoveringsAsListed }
    ensures met { MetAsListed }
{}
