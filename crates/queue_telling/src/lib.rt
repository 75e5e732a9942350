//! Definitions: which queues the tables of a checkpoint tell, and the pages that spell them.
#![tactic(auto)]
