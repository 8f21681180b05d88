#![tactic(auto)]

// The law over whole runs of the module, and its proof: see specs/Law.antt. `rbc` promises it of every module made, and
// `session` of every list of calls that it plays.
