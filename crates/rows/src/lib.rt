// The rows of a case, A, E, b and f, as four lists: definitions and laws, in specs/.

#![tactic(auto)]
