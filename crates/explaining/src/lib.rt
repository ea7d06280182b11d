// No code: what the explainer's functions answer, from what those that they call answer (Request 08), stage by stage: the frame, the reading, the root, an object, the room.
#![tactic(auto)]
