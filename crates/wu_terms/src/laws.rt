//! Why candidates serve.
ghost use Rattle.wu_terms.specs.Laws.{CandidatesGiveTheTerms};

/// A law: of any terms that have all those of some texts, the words that begin with a prefix and stand in one of the
/// texts at least are these texts' terms. So the dictionary of an index may have terms of other texts too.
pub fn candidates_give_the_terms()
    ensures { CandidatesGiveTheTerms }
{}
