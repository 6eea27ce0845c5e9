// Laws only: what the rows of a rename leave, applied whole. The subject stands in specs/.
#![tactic(auto)]
