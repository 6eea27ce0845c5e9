// Laws only: what the rows of an exchange leave, applied whole. The subject stands in specs/.
#![tactic(auto)]
