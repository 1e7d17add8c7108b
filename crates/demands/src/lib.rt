// The promises about the whole, as theorems over the definitions that the calls' contracts cite: specs/ has the statements, proofs/ the proofs.
#![tactic(auto)]
