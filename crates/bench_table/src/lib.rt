// Laws only: the lines of the bench table, as one claim by computation of the jobs' definitions. The subject stands in specs/.
#![tactic(auto)]
