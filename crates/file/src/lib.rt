// What a saved plan is: its bytes, saving and loading (specs/); no code.
#![tactic(auto)]
