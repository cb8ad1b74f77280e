// Which nonterminals derive each stretch of a word of at most 64 letters: what the crates that fill the table speak of, and why that is right.
// Definitions in specs/: Sets (sets of nonterminals as numbers, units, closures), Rounds (a round over the rules), Spans (ends and starts of
// stretches as digits), Filling (the table while it is filled). Laws: SetLaws (sets closed under the rules are complete, whatever computed
// them), Derivations (a rule derives what its body spells), RoundLaws, UnitLaws, SpanLaws, FillLaws (the steps of the code keep what the
// definitions say; in `shown` spelling becomes rewriting), SliceLaws, CellLaws and ByteLaws (stretches, cells, bytes of symbols).
#![tactic(auto)]
