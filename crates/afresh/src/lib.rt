// Laws only: the results of a rename made afresh, on an image that a crash left. The subject stands in specs/.
#![tactic(auto)]
