// Laws only: what a crash can leave of a journaled change. The subject stands in specs/.
#![tactic(auto)]
