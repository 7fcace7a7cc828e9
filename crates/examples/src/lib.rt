#![tactic(auto)]

// Document 01's examples. Those marked P stand as one theorem in specs/Examples.antt.
