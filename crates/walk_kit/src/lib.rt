// Shared steps of the proofs by hand (walks through a function's MIR), for functions that hold a slice of structs or a struct with a reference.
// No code. Where to look in proofs/:
//     Functions, Parameters     a function that a walk proves, with its parameters and callees; from the walk to the theorem
//     Opening, Closing          into a walk, and out of it
//     Locals, Loops             reading and setting locals, `if`, the test of a `while`; a loop, whose measure falls with each turn
//     CallStep, CallPlain,
//     CallOwning, Handing       a call as one step. Handing: any number of slices lent on, lent as shared, or copied, and then plain data
//     Loans, LendingAgain       a `&mut [T]` that the walk holds, and lends on for a call
//     Sharing, SharedFront      a `&[T]` that the walk holds, which has no name, and its first elements
//     LentPart                  a part of a `&mut [T]`, lent for a call
//     Elements                  an element of a slice, read or stored
//     LentArrays                a `&mut [T; n]`, whose elements are lent on as a `&mut [T]`
//     LocalArrays, ZeroBytes    a local array, lent or shared as a slice; one of bytes that are zeros
//     Tokens                    the token of a lifetime that is made for a loan
//     Borrowed                  what a `&mut T` points to
//     PlainData                 structs of plain data, and what the other files ask of a type, which plain data have
// Sharing a `&mut [T]` or an array asks that T holds no `&mut` (`Shares` at no lifetime), reading a `&[T]` that T is `Copied`, and a copy of a
// `&[T]` that T has `RowLaws`.
// The letters of a step, in every file: M, 𝓤, H and A are a model of the logic (its resources, its heap, its atoms), and W what is given of
// it. Γ is the context, one entry for each thing that the walk holds; E the locals; C and Λ the tables of calls and of loops; p or z what is
// owed at the end; k or f the callee's name, xs its operands, d the place of its result, and `rest` the statements that follow. κ, ν are
// lifetimes, q a share of a lifetime's token, γ, δ the names of a `&mut`, b and o the block and the offset of an address.
#![tactic(auto)]
