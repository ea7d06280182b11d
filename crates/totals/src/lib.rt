// No code: what a model's objects add up to is what the writer's definitions say of its description.
#![tactic(auto)]
