//! What the declarations, statements and texts of C are typed as, or which fault is their first: definitions alone.
#![tactic(auto)]
