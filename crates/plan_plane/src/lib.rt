//! What is proved about the plane: segments, their crossings, and convex polygons. No code that runs.
#![tactic(auto)]
