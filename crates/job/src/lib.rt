// The job file of FORMAT, "Job file": what is written and what is read, as definitions in specs/, and the round trip in
// proofs/. There is no function here.
#![tactic(auto)]

// The longest file.
pub const MAX_FILE: usize = 65536;
