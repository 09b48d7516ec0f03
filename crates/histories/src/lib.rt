#![tactic(auto)]

// What happened, and what a profile of rules has to keep so that no ring of jobs arises and nothing stands still. There is no function here: all of it is theory.
