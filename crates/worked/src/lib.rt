// Laws only: worked examples, by computation of the jobs' definitions. The subject stands in specs/.
#![tactic(auto)]
