//! Token grammars and the one place where a text leaves them: tokens with their numbers, the texts
//! of a grammar, the fronts that begin one, the dead token, and the law by which a machine that
//! takes one token at a time finds it. All of it is in `specs`, for readers of token files to cite.
#![tactic(auto)]
