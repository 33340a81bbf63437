//! The paper's run, computed over the definitions of `paper`: see specs/ and proofs/.
#![tactic(auto)]
