// Laws of the procedure by which document 000 rewrites a tree: it ends, in which form, and what it keeps. There is no function here.

#![tactic(auto)]
