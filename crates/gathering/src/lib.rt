// No function: items gathered one after another, and what is then handed out, over any items, keys and tables of places.
#![tactic(auto)]
