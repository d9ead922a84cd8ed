// The leaves of lower.rs: temporaries, live marks and merged blocks. What they answer and do is defined in specs/.
#![tactic(auto)]
