// No function: 01's sixteen examples, about the definitions that the functions' promises cite.
#![tactic(auto)]
