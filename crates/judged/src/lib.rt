//! What a call over a card answers, as the judge of cards says it. Definitions and lemmas only: they stand in specs/ and proofs/.
#![tactic(auto)]
