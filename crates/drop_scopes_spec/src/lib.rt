// Drop scopes: they are opened, their locals leave, and they are closed. What the steps do is defined in specs/.
#![tactic(auto)]
