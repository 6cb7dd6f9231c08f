//! The laws of reading. Each function does nothing, and its contract is the law.
ghost use Rattle.grammar.specs.Refusals.{RefusedTokenIsFinal};
ghost use Rattle.grammar.specs.Shows.{ReadsWhatIsDerived, DerivationIsUnique, DerivedFormulasAreFine};

/// A text is read as some contents exactly if the grammar derives these contents from it.
pub fn text_reads_as_what_it_derives()
    ensures { ReadsWhatIsDerived }
{}

/// The grammar is unambiguous: no text derives two different contents.
pub fn derivation_is_unique()
    ensures { DerivationIsUnique }
{}

/// What is read has at most 16 names of each kind, no name twice, variables below their kind's count, and bounds in their ranges.
pub fn derived_formulas_are_fine()
    ensures { DerivedFormulasAreFine }
{}

/// A token that is refused as unknown or as not allowed there cannot stand there: no text that is the same up to and with it derives anything.
pub fn refused_token_is_final()
    ensures { RefusedTokenIsFinal }
{}
