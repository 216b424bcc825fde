#![tactic(auto)]

// What the searches without counts promise as a whole: theorems alone.
