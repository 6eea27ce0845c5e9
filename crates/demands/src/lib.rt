// Laws only: what the customer asked for, on the definitions that the jobs' contracts cite.
#![tactic(auto)]
