// Laws that any crate may cite, in specs/: there is no code here.
#![tactic(auto)]
