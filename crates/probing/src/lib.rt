// A fixed table of words with linear probing: definitions and theorems alone.
#![tactic(auto)]
