// The marked cases of document 01, shown to agree with the definitions. There is no code here: see specs/ and proofs/.

#![tactic(auto)]
