// No function: demand 3 and what else is said of whole streams, over the definitions that the reader's promises cite.
#![tactic(auto)]
