// The working order of document 01 over any algebra of effects, and its theorems; no code.
//
// Definitions in specs/, in reading order: Algebra (what the order asks of effects), Journal (rows), Candidates (those of a pass, in order),
// Order (one candidate, a pass, the check), Stopping (where each verdict comes), Behind (the word behind a row), Fitting (a row fits),
// Derivation (derivations by height, over any notion of value).
//
// Theorems, for any algebra with the laws of Algebra:
//     Carrying                               one lemma carries derivations from one notion of value to another
//     Coverage, Walking                      what a live row covers stays covered; what each candidate keeps, the walk keeps
//     Repeating                              a candidate of rows that were there when the pass before began would be dropped
//     Completeness                           a set that covers every candidate formed from it covers everything derived (`closed`);
//                                            a pass covers one height more (`higher`)
//     Soundness                              the word behind each row derives from its nonterminal within the height of its birth pass,
//                                            with exactly the row's effect
//     Truth, CheckTruth                      what each verdict says (`check-says`); a broken pass is the least height
//     Halting                                a pass goes through all its candidates or stops at one, and each before it was one join
//     Exactly                                where the order stops as Stopping says, the check answers so
//     Counting                               spent: joins = budget; full: used = J; pass at most J + 1; joins at most R * J * J * (J + 1)
//     Stability                              a longer journal or a larger budget leaves a firm answer as it is
//     Antichain                              live rows of one nonterminal are incomparable
//     Ending                                 each row is covered by a live row of its nonterminal: at the end a live row is there where a row is
//     FittingRows, FittingLaws, BehindLaws   every used row fits; the word behind a row depends on the rows through it alone
//     Journals, SideBySide                   induction through the journals of a check; two lists, element by element
//     Example, Pins                          small plans over toy algebras, computed: what only a definition's text settles
//
// Letters, in every file: E is the type of effects, A the algebra and L its laws; W is what words are, S how they are spelled and Z the laws of
// their sizes. J is the journal's size, B the budget, k a pass, h a number of passes or a height. s, t and u are progress; c is a candidate and
// cs a list of them; v a verdict, i a row number, a an answer. A prime marks the same of a second check.
#![tactic(auto)]
