// Laws only: an edit of directory entries leaves a consistent image consistent. The subject stands in specs/.
#![tactic(auto)]
