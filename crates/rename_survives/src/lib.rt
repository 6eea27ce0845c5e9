// Laws only: a rename survives crashes, since recovery's rows are its own. The subject stands in specs/.
#![tactic(auto)]
