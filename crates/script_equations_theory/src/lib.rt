// The equations of a script's graph, as definitions, and that they are well-formed books. No functions: the books that answer by them are in `script_books`.
#![tactic(auto)]
