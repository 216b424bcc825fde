#![tactic(auto)]

// What the reader of XML promises as a whole: theorems alone.
