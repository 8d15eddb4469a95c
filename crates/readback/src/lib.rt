// No code: that a made sector reads back, stated over the definitions that the contracts cite, and proved.
#![tactic(auto)]
