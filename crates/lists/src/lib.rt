// List facts for every carrier; they stand in proofs/, and nothing here runs.
#![tactic(auto)]
