#![tactic(auto)]

// No code: what is proved of the runs of settling, in specs/ and proofs/.
