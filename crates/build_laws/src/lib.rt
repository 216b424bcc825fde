#![tactic(auto)]

// What building an index from a text promises as a whole: theorems alone.
