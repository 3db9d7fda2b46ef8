//! Rows as parts give them, as writes fill them, and as operations change them, with their laws. No code that runs.
#![tactic(auto)]
