// What is shown of several rooms together. It holds no code.
#![tactic(auto)]
