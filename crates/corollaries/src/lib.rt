// What follows from demand 3 and the rules (allocator/specs/Corollaries.antt), and what demand 3 needs of loading. No definition of a rule is changed
// to see these fail, so they stand apart from the allocator, which each must-fail edit of a definition checks.
#![tactic(auto)]
