// Lists: the list functions that the rules are written with, and their laws. It stands on the kit's libraries alone.
#![tactic(auto)]
