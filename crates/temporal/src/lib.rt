// The meaning of formulas and of the game. The definitions stand in specs/.
// Each function here stands for laws about them: it does nothing, and its contract is the laws.
#![tactic(auto)]

ghost use Rattle.temporal.specs.Laws.{RestExact, TruthMonotone, TruthLocal, StepExact, RangeTruth, FromAt, SameComputes};
ghost use Rattle.temporal.specs.Laws.{NormalFormSaysTheSame, NormalFormFine};
ghost use Rattle.temporal.specs.Laws.{MemberComputes, PartsListedOnce, EnterExtends, EnterClosed, AllParts};
ghost use Rattle.temporal.specs.Laws.{AnyPadding, CompleteStays, BrokenStays, LostStays};
ghost use Rattle.temporal.specs.Laws.{RepliedMeans, AskedMeans, NeverBoth, BaseWellformed};

/// A formula is true exactly if what is left of it after a step is true from the next step on, whatever literals the step counts as true.
pub fn rest_is_exact()
    ensures { RestExact }
{}

/// Where more literals count as true, more formulas are true; and truth looks no further than the reach.
pub fn truth_is_monotone_and_local()
    ensures monotone { TruthMonotone }
    ensures local { TruthLocal }
{}

/// The definitions that truth is made of say what they are called: steps, ranges, later parts of a sequence, equality.
pub fn definitions_say_what_they_are_called()
    ensures step { StepExact }
    ensures ranges { RangeTruth }
    ensures from { FromAt }
    ensures same { SameComputes }
{}

/// The normal form of a written formula has the value that linear temporal logic gives the formula, on every sequence of valuations.
pub fn normal_form_says_the_same()
    ensures says { NormalFormSaysTheSame }
    ensures fine { NormalFormFine }
{}

/// The list of a formula's parts has each part once and nothing else.
pub fn parts_are_listed_once()
    ensures members { MemberComputes }
    ensures entered { PartsListedOnce }
    ensures extends { EnterExtends }
    ensures closed { EnterClosed }
    ensures all { AllParts }
{}

/// A complete instance keeps its value however the run goes on, so a broken run stays broken and a lost run lost.
pub fn broken_and_lost_runs_stay_so()
    ensures padding { AnyPadding }
    ensures complete { CompleteStays }
    ensures broken { BrokenStays }
    ensures lost { LostStays }
{}

/// A reply rule is asked for the inputs up to its reply, an input rule for the replies before its input.
pub fn rules_see_the_past_alone()
    ensures replied { RepliedMeans }
    ensures asked { AskedMeans }
{}

/// Not both players win.
pub fn never_both_players_win()
    ensures { NeverBoth }
{}

/// Without a constraint on the inputs every input within the variables is permitted.
pub fn without_constraint_every_input_is_permitted()
    ensures { BaseWellformed }
{}
