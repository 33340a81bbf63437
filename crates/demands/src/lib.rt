//! What the customer demanded, as theorems over the definitions of `paper`: the statements in specs/, a demand a page, the proofs in proofs/.
#![tactic(auto)]
