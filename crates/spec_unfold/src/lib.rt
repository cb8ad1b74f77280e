// Sixteen-byte records (document 02, C-17): moving a file over and back, and unfolding its rules into an 8-byte file; no code. Definitions
// in specs/: Moving (a file in the other form), Chains (bodies of any length as chains of rules), Sorting, Unfolding (what a 16-byte file
// says, and what it unfolds to), Calls (what the three calls answer, and what the lent output holds afterwards); in the users' words
// MovingMeans and UnfoldingMeans (what the answers mean, the numbering of chain procedures, the same runs, demand 3 for a 16-byte file).
// Theorems: MovingTruth and UnfoldingTruth (the answers mean that), NumberTruth (17 and 18 exactly, the first chain procedure), CallLaws.
// Behind them MovingLaws (each form's checks pass after a move), ShortLaws (a file without long bodies unfolds to what moving back gives),
// ChainLaws and LinkLaws (the words and the rules of chains), ChainFacts (how many, no two equal), FreshLaws and Needing (the first free
// number), SortingLaws and OrderLaws, RuleRecords and FewFinals (records by kind), ViewLaws, UnfoldingLaws (the unfolded file passes every
// check), SameRuns (it derives the same), StartLaws (starting procedures are no chain procedures, C-18). Computed: Pins (edges, orders of
// refusals, unfolded files to their bytes).
#![tactic(auto)]
