// What document 000, section 2.1, defines, and C-11's remarks; no code. Definitions in specs/: Grammar (symbols, productions, the rules of a
// file), Rewriting (a step, the language of a nonterminal), Spelling (derivation by height), Remarks (the terminals that leave an automaton in
// its state), Automaton (paths, acceptance), WordRelation (the relation of a word). Theorems: Agreement (rewriting derives what spelling
// derives, for bodies of any length), RewritingLaws (what one grammar rewrites another does too, under a substitution for nonterminals),
// RuleLaws (a file's rules as productions), Paths (a pair of a word's relation is a path on the word; the relation of uv is that of u
// composed with that of v), RemarkLaws, Striking (a word without its remarks has the same relation and paths).
#![tactic(auto)]
