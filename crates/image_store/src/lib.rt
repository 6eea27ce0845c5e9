// Laws only: the byte image and the job that applies a row are a store of the crash theorem. The subject stands in specs/.
#![tactic(auto)]
