// The theory of closing holds no code: its definitions stand in specs/, and what is shown of them in proofs/.
#![tactic(auto)]
