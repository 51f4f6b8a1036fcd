// No code: the laws of Reed-Muller codes and of the majority voting of document 004, for every order r and every number of variables m.
#![tactic(auto)]
