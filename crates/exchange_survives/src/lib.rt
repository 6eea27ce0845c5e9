// Laws only: an exchange survives crashes. The subject stands in specs/.
#![tactic(auto)]
