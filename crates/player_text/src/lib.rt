// Definitions and theorems: the player as text in, text out; that over the crossbar, the output-queued switch and the
// PIFO switch it prints the same text; and that taken turn by turn it prints the same text however the trace arrives.
#![tactic(auto)]
