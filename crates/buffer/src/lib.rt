// Lists: what a buffer holds after writes over its front or from a place on, what a writer asks and promises, lists one after another, and a test of every
// element: definitions and laws, in specs/.

#![tactic(auto)]
