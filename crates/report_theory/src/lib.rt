// What a report says of a script, and its text to the byte. Definitions, and why no two reports have the same text. No functions.
#![tactic(auto)]
