// No code: demands 1, 2 and 3, also on images, and the settled cases of document 01, stated over the definitions that
// the contracts cite, and proved.
#![tactic(auto)]
